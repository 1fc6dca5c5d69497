// Finding optional parameters: definitions and theorems alone, and what a search answers.
#![tactic(auto)]

// Where an optional parameter's contents start and how many octets they have, in the message or in
// the defaults.
#[derive(Clone, Copy)]
pub enum Located {
    Message(usize, usize),
    Defaults(usize, usize),
}

// What a search answers by: 0 where the message holds the parameter, 100 where the defaults do, or
// the refusal's number; and the octet that a refusal is about, 0 where it is about none.
// Its numbers stay: document 01 names 0 and 100 for the companion's answer.
#[derive(Clone, Copy)]
pub struct Code {
    pub number: u8,
    pub place: usize,
}
