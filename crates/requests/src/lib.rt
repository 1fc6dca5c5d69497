// The requests of a line: definitions and theorems alone, and what a line asks.
#![tactic(auto)]

use fields::Field;

// What a line asks: a row of the table, and a field for each of its kinds.
#[derive(Clone, Copy)]
pub struct Request {
    pub which: usize,
    pub fields: [Field; 8],
}
