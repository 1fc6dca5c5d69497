// What the hub does with a message and with a call of our own desk, in any order of arrival:
// definitions, theorems and types.
#![tactic(auto)]

// What a call did: how many octets its answer has, and the first and the last circuit that its
// message names.
#[derive(Clone, Copy)]
pub struct Handled {
    pub count: usize,
    pub first: usize,
    pub last: usize,
}
