// BICC: definitions and theorems alone, the longest message for code, and what reading answers.
#![tactic(auto)]

use parts::Parts;

// A message has so many octets at the most.
pub const LONGEST: usize = 270;

// A message that is well formed: its call instance code, its type, and where its parts stand. BICC
// has no third variable part.
#[derive(Clone, Copy)]
pub struct Message {
    pub code: u32,
    pub kind: u8,
    pub parts: Parts,
}
