// ISUP: definitions and theorems alone, the limits and type octets for code,
// and what reading answers.
#![tactic(auto)]

use parts::Parts;

// A message has so many octets at the most.
pub const LONGEST: usize = 268;

// Circuits are numbered from 0 to this one.
pub const LAST_CIRCUIT: u32 = 4095;

// The types that the hub acts on or answers with.
pub const IAM: u8 = 0x01;

pub const REL: u8 = 0x0C;

pub const RLC: u8 = 0x10;

pub const RSC: u8 = 0x12;

pub const BLO: u8 = 0x13;

pub const UBL: u8 = 0x14;

pub const BLA: u8 = 0x15;

pub const UBA: u8 = 0x16;

pub const GRS: u8 = 0x17;

pub const CGB: u8 = 0x18;

pub const CGU: u8 = 0x19;

pub const CGBA: u8 = 0x1A;

pub const CGUA: u8 = 0x1B;

pub const GRA: u8 = 0x29;

pub const CQM: u8 = 0x2A;

pub const CQR: u8 = 0x2B;

// A message that is well formed: its circuit, its type, and where its parts
// stand. ISUP has no third variable part.
#[derive(Clone, Copy)]
pub struct Message {
    pub circuit: u16,
    pub kind: u8,
    pub parts: Parts,
}
