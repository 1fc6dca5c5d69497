// What the planner looks for before it plans: definitions and theorems alone.
#![tactic(auto)]
