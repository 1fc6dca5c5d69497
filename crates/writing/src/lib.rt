// The compact form of a message of any shape row, with any header: definitions and theorems alone.
#![tactic(auto)]
