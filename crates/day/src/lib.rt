// The tables of a replay, and what a message of a recorded day leaves in them:
// definitions and theorems alone.
#![tactic(auto)]
