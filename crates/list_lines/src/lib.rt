// The requests that list the parameters of a message: definitions and theorems alone.
#![tactic(auto)]
