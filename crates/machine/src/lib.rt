// A recorded day taken octet by octet, and what its replay gives: definitions and theorems alone.
#![tactic(auto)]
