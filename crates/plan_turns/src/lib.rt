// What the desk answers to the requests of a maintenance night (tick, plan,
// check), and what they leave in the ticks.
#![tactic(auto)]

ghost use Rattle.std.specs.Prelude.{◌≡◌, length};
ghost use Rattle.rights.specs.Tables.{tables};
ghost use Rattle.plans.specs.Turns.{check_at};
ghost use Rattle.printing.specs.Sheet.{sheet, pour};
ghost use Rattle.requests.specs.Along.{said_in};
ghost use Rattle.plan_lines.specs.Night.{plan_blank, plan_line, checked_line, night_done, night_left, night_left_by};

use forms::{PLAN, TICK};
use requests::Request;

// How many octets a plan may have.
const PLAN_MOST: usize = 36864;

// A buffer of as many octets as a plan may have, all 0.
fn plan_space() -> [u8; 36864]
    ensures { (result ≡ plan_blank) × (length result ≡ 36864) }
{
    [0u8; PLAN_MOST]
}

// Plans for the ticked circuits with so much room, puts the plan or the
// refusal, and answers the next place.
fn say_plan(
    states: &[u8],
    owners: &[u8],
    helpers: &[u8],
    ticks: &[u8],
    sender: u32,
    kind: u32,
    room: usize,
    out: &mut [u8],
) -> usize
    ensures { sheet out.new result ≡
        pour (sheet out.old 0)
        (plan_line (tables states.now owners.now helpers.now) ticks.now sender kind room) }
{
    let mut space = plan_space();
    let buffer = pieces::front(&mut space, room);
    let written = laying::plan(states, owners, helpers, ticks, sender, kind, buffer);
    sayings::say_written(written, buffer, out)
}

// Checks a plan, puts yes or no, and answers the next place.
fn say_check(
    states: &[u8],
    owners: &[u8],
    helpers: &[u8],
    ticks: &[u8],
    sender: u32,
    kind: u32,
    plan: &[u8],
    out: &mut [u8],
) -> usize
    ensures { sheet out.new result ≡
        pour (sheet out.old 0)
        (checked_line (check_at (tables states.now owners.now helpers.now) ticks.now sender kind plan.now)) }
{
    if checking::check_plan(states, owners, helpers, ticks, sender, kind, plan) {
        return printing::put_text(b"yes", out, 0);
    }
    printing::put_text(b"no", out, 0)
}

// Does one of the requests of a maintenance night, puts its line at the front of `out`, and answers
// the next place. The plan to check is in the scratch.
pub fn plan_turn(
    request: Request,
    octets: &[u8],
    states: &[u8],
    owners: &[u8],
    helpers: &[u8],
    ticks: &mut [u8],
    out: &mut [u8],
) -> usize
    ensures { night_left ticks.new (sheet out.new result) ≡
        night_left_by (night_done (tables states.now owners.now helpers.now) ticks.old request.which (said_in octets.now request.fields)) (sheet out.old 0) }
{
    let fields = request.fields;
    let first = fields[0];
    let second = fields[1];
    let third = fields[2];
    if request.which == TICK {
        return spans::spread_said(ticks, first.value, second.value, third.value, out);
    }
    if request.which == PLAN {
        return say_plan(
            states,
            owners,
            helpers,
            ticks,
            first.value,
            second.value,
            third.value as usize,
            out,
        );
    }
    say_check(
        states,
        owners,
        helpers,
        ticks,
        first.value,
        second.value,
        pieces::stretch(octets, third.from, third.count as usize),
        out,
    )
}
