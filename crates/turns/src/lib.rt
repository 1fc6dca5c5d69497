// What the desk does with a request, by its family: the tables afterwards, and the answer's line.
#![tactic(auto)]

ghost use Rattle.std.specs.Prelude.{◌≡◌};
ghost use Rattle.printing.specs.Sheet.{sheet};
ghost use Rattle.requests.specs.Along.{said_in};
ghost use Rattle.table_lines.specs.Tables.{desk_tables, left, left_by};
ghost use Rattle.turns.specs.Turns.{desk_from, desk_left, desk_left_by, turn_by, row_turn_lem};

use forms::{ACT, BICC_COMPACT, CHECK, NUMBER, OWN, TICK, UNBLOCK, VELOCITY_BACK_LONG};
use requests::Request;

// The answer's line to a request before `tick`, by its family.
fn answer_request(
    request: Request,
    octets: &[u8],
    states: &mut [u8],
    owners: &mut [u8],
    helpers: &mut [u8],
    totals: &mut [u8],
    out: &mut [u8],
) -> usize
    ensures { left (desk_tables states.new owners.new helpers.new totals.new) (sheet out.new result) ≡
        left_by (turn_by (desk_tables states.old owners.old helpers.old totals.old) request.which (said_in octets.now request.fields)) (sheet out.old 0) }
{
    if request.which < NUMBER {
        return codec_lines::codec_line(request, octets, out);
    }
    if request.which < OWN {
        return number_lines::numbers_line(request, octets, out);
    }
    if request.which < ACT {
        return table_lines::table_turn(request, states, owners, helpers, totals, out);
    }
    if request.which == ACT {
        return act_lines::act_turn(request, octets, states, owners, helpers, totals, out);
    }
    if request.which <= UNBLOCK {
        return block_lines::block_turn(request, states, totals, out);
    }
    if request.which <= VELOCITY_BACK_LONG {
        return velocity_lines::velocities_line(request, octets, out);
    }
    if request.which <= BICC_COMPACT {
        return bicc_lines::bicc_line(request, octets, out);
    }
    further_lines::further_turn(request, octets, states, totals, out)
}

// The answer's line to a request, those of a maintenance night too: the tables are as the request
// left them, and the line is at the front of `out`. A row that is none is a bad line. What `out`
// has no room for is left out.
pub fn row_turn(
    request: Request,
    octets: &[u8],
    states: &mut [u8],
    owners: &mut [u8],
    helpers: &mut [u8],
    totals: &mut [u8],
    ticks: &mut [u8],
    out: &mut [u8],
) -> usize
    ensures { desk_left (desk_from states.new owners.new helpers.new totals.new ticks.new) (sheet out.new result) ≡
        desk_left_by (row_turn_lem (desk_from states.old owners.old helpers.old totals.old ticks.old) request.which (said_in octets.now request.fields)) (sheet out.old 0) }
{
    if request.which < TICK {
        return answer_request(request, octets, states, owners, helpers, totals, out);
    }
    if request.which <= CHECK {
        return plan_turns::plan_turn(request, octets, states, owners, helpers, ticks, out);
    }
    printing::put_text(b"bad line", out, 0)
}
