// What a word says as a field of a kind, and where it stands: definitions, theorems and types.
#![tactic(auto)]

// A field of a line: the number that it stands for, and where its octets stand in the scratch.
// Its octets stay in the lent scratch, since nothing is allocated.
#[derive(Clone, Copy)]
pub struct Field {
    pub value: u32,
    pub count: u32,
    pub from: usize,
}
