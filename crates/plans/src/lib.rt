// Plans of a maintenance night, and when one is right: definitions and theorems alone.
#![tactic(auto)]
