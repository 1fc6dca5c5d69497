// SCCP: definitions and theorems alone, the longest message for code, and what reading answers.
#![tactic(auto)]

use parts::Parts;

// A message has so many octets at the most.
pub const LONGEST: usize = 268;

// A message that is well formed: its type, and where its parts stand.
#[derive(Clone, Copy)]
pub struct Message {
    pub kind: u8,
    pub parts: Parts,
}
