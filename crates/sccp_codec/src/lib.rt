// SCCP: the 18 types whose pointers have one octet, the reader and the writer.
// No octet stands before the type.
#![tactic(auto)]

ghost use Rattle.std.specs.Prelude.{◌≡◌};
ghost use Rattle.octets.specs.Told.{told};
ghost use Rattle.octets.specs.Filled.{leaving};
ghost use Rattle.sccp.specs.Table.{sccp_shape_of};
ghost use Rattle.sccp.specs.Read.{sccp_read_of};
ghost use Rattle.sccp.specs.Write.{sccp_write_of, sccp_compact_of};

use layout::Shape;
use octets::Refusal;
use sccp::{LONGEST, Message};
use shapes::SHAPES;

mod shapes;

// What the table says of a type octet: its shape row, or that it is not in the table. One answer
// for each of the 256, by one look-up.
pub fn shape_of(kind: u8) -> Option<Shape>
    ensures { result ≡ sccp_shape_of kind }
{
    heads::row_of(SHAPES[kind as usize])
}

// Reads a message: its type and where its parts stand; or the refusal's number with the octet that
// it is about, 0 for 1, 2 and 3.
pub fn read(message: &[u8]) -> Result<Message, Refusal>
    ensures { told result ≡ sccp_read_of message.now }
{
    let kind = heads::kind_at(message, 0);
    let parts = reading::read_parts(message, 0, LONGEST, shape_of(kind))?;
    Ok(Message { kind, parts })
}

// Writes a message in its compact form: fills the front of `out` and keeps the rest, and answers
// how many octets were written.
// Refused with 3, 10, 11, 12, 2, 13 in that order, and then `out` holds what it held.
pub fn write(
    kind: u32,
    fixed: &[u8],
    first: &[u8],
    second: &[u8],
    third: &[u8],
    optional: &[u8],
    out: &mut [u8],
) -> Result<usize, Refusal>
    ensures { leaving (told result) out.new ≡
        sccp_write_of kind fixed.now first.now second.now
        third.now optional.now out.old }
{
    if 255 < kind {
        return Err(Refusal::UnknownType(0));
    }
    let octet = kind as u8;
    let Some(shape) = shape_of(octet) else {
        return Err(Refusal::UnknownType(0));
    };
    filling::write_parts(
        shape,
        LONGEST as u16,
        &optional[0..0],
        octet,
        fixed,
        first,
        second,
        third,
        optional,
        out,
    )
}

// Reads a message and writes it again, in its compact form: fills the front of `out` and keeps the
// rest, and answers how many octets were written.
// Refused with the reader's numbers and octets, then 12, then 13, and then
// `out` holds what it held.
pub fn compact(message: &[u8], out: &mut [u8]) -> Result<usize, Refusal>
    ensures { leaving (told result) out.new ≡
        sccp_compact_of message.now out.old }
{
    let row = shape_of(heads::kind_at(message, 0));
    let head = &message[0..0];
    rewriting::rewrite(message, 0, LONGEST as u16, row, head, out)
}
