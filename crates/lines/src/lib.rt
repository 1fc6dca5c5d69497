// What the lines of the desk's answers have in common: definitions and theorems alone.
#![tactic(auto)]
