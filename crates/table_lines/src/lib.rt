// What the desk answers to the requests of the tables (own, helper, set, rows),
// and what they leave in the tables.
#![tactic(auto)]

ghost use Rattle.std.specs.Prelude.{◌≡◌, [], ◌+◌, ◌-◌};
ghost use Rattle.octets.specs.Applied.{spread};
ghost use Rattle.totals.specs.Blocks.{recounted};
ghost use Rattle.words.specs.Said.{said};
ghost use Rattle.printing.specs.Sheet.{sheet, pour};
ghost use Rattle.requests.specs.Words.{number_at, octet_at_lem};
ghost use Rattle.requests.specs.Along.{said_in};
ghost use Rattle.table_lines.specs.Tables.{desk_tables, left, left_by, rows_line, table_turn_lem};

use forms::{HELPER, OWN, SET};
use requests::Request;

// How many entries there are from the first to the last.
fn span(first: u32, last: u32) -> usize
    ensures { result ≡ last + 1 - first }
{
    if last < first {
        return 0;
    }
    (last - first) as usize + 1
}

// Makes each entry of a table that a request names the octet that it says, says so at the front of
// `out`, and answers the next place.
fn spread_asked(request: Request, table: &mut [u8], out: &mut [u8]) -> usize
    ensures { (table.new ≡ spread table.old (number_at (said_in [] request.fields) 0) (number_at (said_in [] request.fields) 1) (octet_at_lem (said_in [] request.fields) 2)) ×
        (sheet out.new result ≡ pour (sheet out.old 0) (said "ok")) }
{
    let fields = request.fields;
    let first = fields[0];
    let last = fields[1];
    let octet = fields[2];
    spans::spread_said(table, first.value, last.value, octet.value, out)
}

// Makes the totals of the blocks that the rows of a request touch right.
fn recount_asked(request: Request, states: &[u8], totals: &mut [u8])
    ensures { totals.new ≡
        recounted states.now (number_at (said_in [] request.fields) 0)
        (number_at (said_in [] request.fields) 1) totals.old }
{
    let fields = request.fields;
    let first = fields[0];
    let last = fields[1];
    blocks::recount(states, totals, first.value as usize, last.value as usize);
}

// Puts the rows that a request names at the front of `out`, and answers the next place.
fn say_rows(request: Request, states: &[u8], out: &mut [u8]) -> usize
    ensures { sheet out.new result ≡
        pour (sheet out.old 0)
        (rows_line states.now (number_at (said_in [] request.fields) 0) (number_at (said_in [] request.fields) 1)) }
{
    let fields = request.fields;
    let first = fields[0];
    let last = fields[1];
    let count = span(first.value, last.value);
    sayings::put_shown(
        b"rows ",
        pieces::stretch(states, first.value as usize, count),
        out,
        0,
    )
}

// Does one of the requests of the tables, puts its line at the front of `out`, and answers the next
// place. Its fields are numbers, so the scratch says nothing of them.
pub fn table_turn(
    request: Request,
    states: &mut [u8],
    owners: &mut [u8],
    helpers: &mut [u8],
    totals: &mut [u8],
    out: &mut [u8],
) -> usize
    ensures { left (desk_tables states.new owners.new helpers.new totals.new) (sheet out.new result) ≡
        left_by (table_turn_lem (desk_tables states.old owners.old helpers.old totals.old) request.which (said_in [] request.fields)) (sheet out.old 0) }
{
    if request.which == OWN {
        return spread_asked(request, owners, out);
    }
    if request.which == HELPER {
        return spread_asked(request, helpers, out);
    }
    if request.which == SET {
        let end = spread_asked(request, states, out);
        recount_asked(request, states, totals);
        return end;
    }
    say_rows(request, states, out)
}
