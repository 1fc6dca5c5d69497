// Who may do what on the circuits that a message names: definitions and theorems alone.
#![tactic(auto)]
