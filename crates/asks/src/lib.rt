// What a message asks of the hub, and what is said of it: definitions, theorems and types.
#![tactic(auto)]

use rows::Act;

// What a message asks: the act; the circuits, `circuit` and the `range` after it; the kind of
// block, 0 for maintenance and 1 for hardware; and the octet at which the status stands, 0 where
// each named circuit is marked.
#[derive(Clone, Copy)]
pub struct Ask {
    pub act: Act,
    pub circuit: usize,
    pub range: usize,
    pub block: u8,
    pub status: usize,
}
