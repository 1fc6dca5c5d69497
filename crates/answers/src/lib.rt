// What the desk answers to a line. The proved libraries do the work, and the answer is written as a
// line into a lent buffer.
#![tactic(auto)]

ghost use Rattle.std.specs.Prelude.{◌≡◌, length};
ghost use Rattle.printing.specs.Sheet.{sheet};
ghost use Rattle.turns.specs.Turns.{desk_from, desk_left, desk_left_by};
ghost use Rattle.answers.specs.Answers.{turn_in, with_line_end};

use octets::{Numbered, Refusal};

// The octets of scratch that a line asks for.
const SCRATCH_LEAST: usize = 41032;

// The answer's line to a line.
fn answer_line(
    line: &[u8],
    states: &mut [u8],
    owners: &mut [u8],
    helpers: &mut [u8],
    totals: &mut [u8],
    ticks: &mut [u8],
    scratch: &mut [u8],
    out: &mut [u8],
) -> usize
    ensures { desk_left (desk_from states.new owners.new helpers.new totals.new ticks.new) (sheet out.new result) ≡
        desk_left_by (turn_in (length scratch.old) line.now (desk_from states.old owners.old helpers.old totals.old ticks.old)) (sheet out.old 0) }
{
    if scratch.len() < SCRATCH_LEAST {
        return printing::put_text(b"bad line", out, 0);
    }
    if sizes::sized(
        states.len(),
        owners.len(),
        helpers.len(),
        totals.len(),
        ticks.len(),
    ) {
        let request = taking::request_of(line, scratch);
        return turns::row_turn(
            request, scratch, states, owners, helpers, totals, ticks, out,
        );
    }
    sayings::say_refusal(Refusal::WrongTables.number(), out)
}

// Answers a line: the tables are as the request left them, and the answer's line, with its LF, is
// at the front of `out`. Answers how many octets it has.
// A line that is no request, or that is refused, changes no table. What `out`
// has no room for is left out.
// The octets of the line's fields are put into `scratch`. What it holds afterwards
// is not said; what it held before changes nothing, but with fewer than 41032
// octets of it each line is a bad one.
pub fn answer(
    line: &[u8],
    states: &mut [u8],
    owners: &mut [u8],
    helpers: &mut [u8],
    totals: &mut [u8],
    ticks: &mut [u8],
    scratch: &mut [u8],
    out: &mut [u8],
) -> usize
    ensures { desk_left (desk_from states.new owners.new helpers.new totals.new ticks.new) (sheet out.new result) ≡
        with_line_end (desk_left_by (turn_in (length scratch.old) line.now (desk_from states.old owners.old helpers.old totals.old ticks.old)) (sheet out.old 0)) }
{
    let end = answer_line(line, states, owners, helpers, totals, ticks, scratch, out);
    printing::put_octet(b'\n', out, end)
}
