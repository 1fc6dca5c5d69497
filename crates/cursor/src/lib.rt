// A cursor over the optional parameters of a message: it holds the message and a place in it.
// Definitions, theorems and types.
#![tactic(auto)]

// The lent message, and the octet at which the next step looks. Any octet gets an answer.
#[derive(Clone, Copy)]
pub struct Cursor<'a> {
    pub message: &'a [u8],
    pub at: usize,
}
