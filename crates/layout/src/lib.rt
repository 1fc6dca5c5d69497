// The layout of a message by its shape row: definitions, theorems and types.
// Octets are numbered from 0.
#![tactic(auto)]

// A shape row: octets of the fixed part, variable parameters (0 to 3), and
// whether there is an optional part.
#[derive(Clone, Copy)]
pub struct Shape {
    pub fixed: u8,
    pub vars: u8,
    pub opt: bool,
}
