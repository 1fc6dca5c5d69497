// What the desk says of a type's shape, and of a message: definitions and theorems alone.
#![tactic(auto)]
