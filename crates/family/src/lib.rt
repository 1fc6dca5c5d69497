// What every family of messages has: reading, writing again and stepping.
// Definitions and theorems alone.
#![tactic(auto)]
