// The boundary's functions on the totals of busy circuits: the question how many are busy, and the
// rebuild. With `llachurep` and its like they are one library for C and Rust.
#![tactic(auto)]

ghost use Rattle.std.specs.Prelude.{◌≡◌};
ghost use Rattle.totals.specs.Blocks.{rebuild_of};
ghost use Rattle.totals.specs.Question.{busy_between_lem};
ghost use Rattle.boundary.specs.Boundary.{given, given_by};
ghost use Rattle.occupancy.specs.Occupancy.{packed_count};

use octets::Numbered;

// How many of the circuits from the first to the last are busy. Answers 4294967296 *
// N + 65536 * looked + count: `looked` is how many totals and rows were looked at,
// 188 at the most. Refused with 16, 9, 18.
#[unsafe(no_mangle)]
pub extern "C" fn llachurep_busy(states: &[u8], totals: &[u8], first: u32, last: u32) -> u64
    ensures { result ≡
        packed_count (busy_between_lem states.now totals.now first last) }
{
    match blocks::busy_between(states, totals, first, last) {
        Err(why) => 4294967296 * why.number() as u64,
        Ok(x) => 65536 * x.looked as u64 + x.count as u64,
    }
}

// Makes every total the count of its block's rows, whatever it was. Accepted:
// 64, and `totals` are right. Refused with 16.
#[unsafe(no_mangle)]
pub extern "C" fn llachurep_rebuild(states: &[u8], totals: &mut [u8]) -> u32
    ensures { given result totals.new ≡ given_by (rebuild_of states.now totals.old) }
{
    telling::written(blocks::rebuild(states, totals))
}
