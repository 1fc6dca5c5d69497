// The planner of a maintenance night: definitions and theorems alone.
#![tactic(auto)]
