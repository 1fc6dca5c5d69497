// What the desk answers to the requests about how many circuits are busy (busy, totals, total,
// rebuild), and what they leave in the totals.
#![tactic(auto)]

ghost use Rattle.std.specs.Prelude.{◌≡◌, [], set};
ghost use Rattle.totals.specs.Question.{busy_between_lem};
ghost use Rattle.printing.specs.Sheet.{sheet, pour};
ghost use Rattle.requests.specs.Along.{said_in};
ghost use Rattle.busy_lines.specs.Busy.{count_line, busy_line, rebuilt, busy_done, busy_left, busy_left_by};

use forms::{BUSY, TOTAL, TOTALS};
use octets::Numbered;
use requests::Request;
use totals::Count;

// Puts a count with how many totals and rows were looked at for it, and answers the next place.
fn say_count(count: Count, out: &mut [u8]) -> usize
    ensures { sheet out.new result ≡
        pour (sheet out.old 0) (count_line count) }
{
    let next = sayings::put_count(b"count ", count.count, out, 0);
    sayings::put_count(b" looked ", count.looked, out, next)
}

// Asks how many of the circuits from the first to the last are busy, puts the count or the refusal,
// and answers the next place.
#[tactic(auto, unfolding(busy_lines::specs::Busy::busy_line))]
fn say_busy(states: &[u8], totals: &[u8], first: u32, last: u32, out: &mut [u8]) -> usize
    ensures { sheet out.new result ≡
        pour (sheet out.old 0)
        (busy_line (busy_between_lem states.now totals.now first last)) }
{
    match blocks::busy_between(states, totals, first, last) {
        Ok(count) => say_count(count, out),
        Err(why) => sayings::say_refusal(why.number(), out),
    }
}

// Overwrites one total, where there is such a one.
fn overwrite(totals: &mut [u8], block: usize, value: u8)
    ensures { totals.new ≡ set totals.old block value }
{
    if block < totals.len() {
        totals[block] = value;
    }
}

// Makes every total right, says so or puts the refusal, and answers the next place.
#[tactic(auto, unfolding(busy_lines::specs::Busy::rebuild_line))]
fn say_rebuilt(states: &[u8], totals: &mut [u8], out: &mut [u8]) -> usize
    ensures { busy_left totals.new (sheet out.new result) ≡
        busy_left_by (rebuilt states.now totals.old)
        (sheet out.old 0) }
{
    match blocks::rebuild(states, totals) {
        Ok(_) => printing::put_text(b"ok", out, 0),
        Err(why) => sayings::say_refusal(why.number(), out),
    }
}

// Does one of the requests about how many circuits are busy, puts its line at the front of `out`,
// and answers the next place. Its fields are numbers, so the scratch says nothing of them.
#[tactic(auto, unfolding(busy_lines::specs::Busy::busy_done))]
pub fn busy_turn(request: Request, states: &[u8], totals: &mut [u8], out: &mut [u8]) -> usize
    ensures { busy_left totals.new (sheet out.new result) ≡
        busy_left_by (busy_done states.now totals.old request.which (said_in [] request.fields))
        (sheet out.old 0) }
{
    let fields = request.fields;
    let first = fields[0];
    let second = fields[1];
    if request.which == BUSY {
        return say_busy(states, totals, first.value, second.value, out);
    }
    if request.which == TOTALS {
        return sayings::put_shown(b"totals ", totals, out, 0);
    }
    if request.which == TOTAL {
        overwrite(totals, first.value as usize, (second.value % 256) as u8);
        return printing::put_text(b"ok", out, 0);
    }
    say_rebuilt(states, totals, out)
}
