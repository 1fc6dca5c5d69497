// How many circuits are busy, counted by blocks of 64: definitions and
// theorems, and what a question answers.
#![tactic(auto)]

// How many circuits are busy, and how many totals and rows were looked at for it.
#[derive(Clone, Copy)]
pub struct Count {
    pub count: usize,
    pub looked: usize,
}
