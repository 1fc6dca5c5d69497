// A called party number: definitions and theorems, and the values of one.
#![tactic(auto)]

// How many signals a number has at the most.
pub const MOST_SIGNALS: usize = 30;

// What a number has beside its signals: nature of address, numbering plan, internal network bit,
// and how many signals there are.
#[derive(Clone, Copy)]
pub struct Number {
    pub nature: u8,
    pub plan: u8,
    pub internal: u8,
    pub count: usize,
}
