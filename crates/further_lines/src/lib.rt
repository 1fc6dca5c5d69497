// The answer's line to a request past BICC's: one of SCCP's, one that lists a message's parameters,
// or one about the totals.
#![tactic(auto)]

ghost use Rattle.std.specs.Prelude.{◌≡◌};
ghost use Rattle.printing.specs.Sheet.{sheet, pour};
ghost use Rattle.requests.specs.Along.{said_in};
ghost use Rattle.busy_lines.specs.Busy.{busy_left, busy_left_by};
ghost use Rattle.further_lines.specs.Further.{further_line_lem, further_done};

use forms::{BUSY, REBUILD, SCCP_COMPACT, SCCP_LIST};
use requests::Request;

// The answer's line to a request past BICC's that changes no table: one of SCCP's, or one that
// lists parameters; any other is a bad line.
fn further_line(request: Request, octets: &[u8], out: &mut [u8]) -> usize
    ensures { sheet out.new result ≡
        pour (sheet out.old 0)
        (further_line_lem request.which (said_in octets.now request.fields)) }
{
    if request.which <= SCCP_COMPACT {
        return sccp_lines::sccp_line(request, octets, out);
    }
    if request.which <= SCCP_LIST {
        return listing::list_line(request, octets, out);
    }
    printing::put_text(b"bad line", out, 0)
}

// The answer's line to a request past BICC's, those about the totals too: what they hold
// afterwards, and the line at the front of `out`. A row that is none of them is a bad line. What
// `out` has no room for is left out.
pub fn further_turn(
    request: Request,
    octets: &[u8],
    states: &[u8],
    totals: &mut [u8],
    out: &mut [u8],
) -> usize
    ensures { busy_left totals.new (sheet out.new result) ≡
        busy_left_by (further_done states.now totals.old request.which (said_in octets.now request.fields)) (sheet out.old 0) }
{
    if request.which < BUSY {
        return further_line(request, octets, out);
    }
    if request.which <= REBUILD {
        return busy_turns::busy_turn(request, states, totals, out);
    }
    printing::put_text(b"bad line", out, 0)
}
