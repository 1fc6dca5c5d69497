// A called party number written: definitions and theorems alone.
#![tactic(auto)]
