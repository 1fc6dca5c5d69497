// What a row says, and what becomes of it: one state octet for each circuit, 1 busy,
// 2 remotely blocked for maintenance, 4 for hardware, 8 locally blocked, added up.
// Definitions, theorems and types.
#![tactic(auto)]

// How many circuits the hub has: each table has a row for each.
pub const CIRCUITS: usize = 4096;

// What can be done to circuits: to one that is named alone, or to each marked
// one of a group. A query changes none.
#[derive(Clone, Copy)]
pub enum Act {
    Seize,
    Release,
    Reset,
    Block,
    Unblock,
    ResetGroup,
    BlockGroup,
    UnblockGroup,
    Query,
}
