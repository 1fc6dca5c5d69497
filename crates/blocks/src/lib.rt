// The totals of the blocks: counted anew after a call, rebuilt from the rows,
// and asked how many circuits are busy.
#![tactic(auto)]

ghost use Rattle.std.specs.Prelude.{◌≡◌, ◌+◌, ◌*◌, ◌≤◌, ◌<◌, length};
ghost use Rattle.octets.specs.Told.{told};
ghost use Rattle.octets.specs.Octet.{octet};
ghost use Rattle.octets.specs.Sum.{total};
ghost use Rattle.octets.specs.Filled.{leaving};
ghost use Rattle.totals.specs.Blocks.{busy_in, block_count_lem, blocks_counted, recounted, rebuild_of};
ghost use Rattle.totals.specs.Question.{count_between_lem, busy_between_lem};

use octets::Refusal;
use rows::CIRCUITS;
use totals::Count;

// How many totals there are.
pub const BLOCKS: usize = 64;

// How many of the `count` rows from the first on are busy, each looked at once.
fn busy_rows(states: &[u8], first: usize, count: usize) -> u8
    requires { (first + count ≤ length states.now) × (count ≤ 255) }
    ensures { result ≡ busy_in states.now first count }
{
    states[first..first + count].iter().map(|row| row % 2).sum()
}

// How many rows of a block are busy, wherever the states end: what is past their end is not busy.
fn block_count(states: &[u8], block: usize) -> u8
    ensures { result ≡ block_count_lem states.now block }
{
    if block > states.len() / 64 {
        return 0;
    }
    let rows = (states.len() - 64 * block).min(64);
    busy_rows(states, 64 * block, rows)
}

// Counts the blocks from the first to the last anew, wherever states and totals end.
fn count_any(states: &[u8], totals: &mut [u8], first: usize, last: usize)
    ensures { totals.new ≡
        blocks_counted states.now first last totals.old }
{
    for block in first..totals.len() {
        if block > last {
            return;
        }
        totals[block] = block_count(states, block);
    }
}

// Counts the blocks from the first to the last anew, where all their rows and totals are there.
fn count_whole(states: &[u8], totals: &mut [u8], first: usize, last: usize)
    requires { (last < length totals.old) × (64 * last + 64 ≤ length states.now) }
    ensures { totals.new ≡
        blocks_counted states.now first last totals.old }
{
    for block in first..last + 1 {
        totals[block] = busy_rows(states, 64 * block, 64);
    }
}

// Makes the total of each block that holds one of the circuits from the first to the last the count
// of its rows, as many of them as there are totals; every other total stays.
pub fn recount(states: &[u8], totals: &mut [u8], first: usize, last: usize)
    ensures { totals.new ≡
        recounted states.now first last totals.old }
{
    if last / 64 < totals.len() {
        if last / 64 < states.len() / 64 {
            count_whole(states, totals, first / 64, last / 64);
            return;
        }
    }
    count_any(states, totals, first / 64, last / 64);
}

// Makes every total the count of its rows, whatever it was: 64 totals are written. Refused with 16
// where there are not 4096 states and 64 totals; a refusal keeps the totals.
pub fn rebuild(states: &[u8], totals: &mut [u8]) -> Result<usize, Refusal>
    ensures { leaving (told result) totals.new ≡
        rebuild_of states.now totals.old }
{
    if states.len() != CIRCUITS {
        return Err(Refusal::WrongTables);
    }
    if totals.len() != BLOCKS {
        return Err(Refusal::WrongTables);
    }
    recount(states, totals, 0, CIRCUITS - 1);
    Ok(BLOCKS)
}

// The sum of the totals of `count` blocks from the first on, each looked at once.
fn blocks_sum(totals: &[u8], first: usize, count: usize) -> usize
    requires { (first + count ≤ length totals.now) × (count ≤ 64) }
    ensures { (result ≡ total (octet totals.now) first count) × (result ≤ 255 * count) }
{
    totals[first..first + count]
        .iter()
        .map(|total| *total as usize)
        .sum()
}

// How many of the circuits from the first to the last are busy: whole blocks by their totals, and
// only the loose rows before and after them one by one.
fn count_between(states: &[u8], totals: &[u8], first: usize, last: usize) -> Count
    requires { (length states.now ≡ 4096) × (length totals.now ≡ 64) × (first ≤ last)
        × (last ≤ 4095) }
    ensures { result ≡ count_between_lem states.now totals.now first last }
{
    let from = (first + 63) / 64;
    let to = (last + 1) / 64;
    if from < to {
        let before = 64 * from - first;
        let whole = to - from;
        let after = last + 1 - 64 * to;
        let busy = busy_rows(states, first, before) as usize
            + blocks_sum(totals, from, whole)
            + busy_rows(states, 64 * to, after) as usize;
        return Count {
            count: busy,
            looked: before + whole + after,
        };
    }
    let loose = last + 1 - first;
    Count {
        count: busy_rows(states, first, loose) as usize,
        looked: loose,
    }
}

// How many of the circuits from the first to the last are busy by the totals and the loose rows,
// and how many numbers were looked at, 188 at the most.
// Refused in order: 16 where there are not 4096 states and 64 totals, 9 where the last is above
// 4095, 18 where the first is above the last.
pub fn busy_between(states: &[u8], totals: &[u8], first: u32, last: u32) -> Result<Count, Refusal>
    ensures { told result ≡
        busy_between_lem states.now totals.now first last }
{
    if states.len() != CIRCUITS {
        return Err(Refusal::WrongTables);
    }
    if totals.len() != BLOCKS {
        return Err(Refusal::WrongTables);
    }
    if last > 4095 {
        return Err(Refusal::NoCircuit);
    }
    if first > last {
        return Err(Refusal::PastLastCircuit);
    }
    Ok(count_between(states, totals, first as usize, last as usize))
}
