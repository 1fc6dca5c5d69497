// The requests about busy circuits and their totals: definitions and theorems alone.
#![tactic(auto)]
