// Makes a span of a table hold one octet, as the requests own, helper, set
// and tick ask, and says so.
#![tactic(auto)]

ghost use Rattle.std.specs.Prelude.{◌≡◌, ◌%◌};
ghost use Rattle.octets.specs.Applied.{spread};
ghost use Rattle.words.specs.Said.{said};
ghost use Rattle.printing.specs.Sheet.{sheet, pour};
ghost use Rattle.spans.specs.Inside.{span_end};

// Where the entries up to the last end in a table of that length.
fn end_of(length: usize, last: usize) -> usize
    ensures { result ≡ span_end «length» last }
{
    if last < length {
        return last + 1;
    }
    length
}

// Makes each entry of a table from the first to the last that octet, as many of them as there are.
fn spread_over(table: &mut [u8], first: usize, last: usize, octet: u8)
    ensures { table.new ≡ spread table.old first last octet }
{
    let end = end_of(table.len(), last);
    if first < end {
        table[first..end].fill(octet);
    }
}

// Makes each entry of a table from the first to the last the octet that a request says, says so at
// the front of `out`, and answers the next place.
pub fn spread_said(table: &mut [u8], first: u32, last: u32, octet: u32, out: &mut [u8]) -> usize
    ensures { (table.new ≡ spread table.old first last (octet % 256)) ×
        (sheet out.new result ≡ pour (sheet out.old 0) (said "ok")) }
{
    spread_over(table, first as usize, last as usize, (octet % 256) as u8);
    printing::put_text(b"ok", out, 0)
}
