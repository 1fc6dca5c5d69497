// BICC, ISUP's sibling without circuits: the 20 types, the reader and the writer. A message has a
// call instance code of four octets, then the type and the parts as in ISUP.
#![tactic(auto)]

ghost use Rattle.std.specs.Prelude.{◌≡◌, ◌≤◌, length};
ghost use Rattle.octets.specs.Told.{told};
ghost use Rattle.octets.specs.Octet.{octets};
ghost use Rattle.octets.specs.Filled.{leaving};
ghost use Rattle.bicc.specs.Table.{call_shape_of};
ghost use Rattle.bicc.specs.Read.{call_code_of, call_read_of};
ghost use Rattle.bicc.specs.Write.{call_write_of, call_compact_of};

use bicc::{LONGEST, Message};
use layout::Shape;
use octets::Refusal;

// What the table says of a type octet: ISUP's row, but that BLO, UBL, BLA and UBA, which stand
// together, are ISUP's alone.
pub fn shape_of(kind: u8) -> Option<Shape>
    ensures { result ≡ call_shape_of kind }
{
    if kind < isup::BLO {
        return isup_codec::shape_of(kind);
    }
    if isup::UBA < kind {
        return isup_codec::shape_of(kind);
    }
    None
}

// The call instance code: four octets, the least significant first.
fn code_of(message: &[u8]) -> u32
    requires { 4 ≤ length message.now }
    ensures { result ≡ call_code_of message.now }
{
    let a = message[0] as u32;
    let b = message[1] as u32;
    let c = message[2] as u32;
    let d = message[3] as u32;
    a + 256 * (b + 256 * (c + 256 * d))
}

// Reads a message: its code, its type and where its parts stand; or the refusal's number with the
// octet that it is about, 0 for 1 and 2.
pub fn read(message: &[u8]) -> Result<Message, Refusal>
    ensures { told result ≡ call_read_of message.now }
{
    let kind = heads::kind_at(message, 4);
    let parts = reading::read_parts(message, 4, LONGEST, shape_of(kind))?;
    Ok(Message {
        code: code_of(message),
        kind,
        parts,
    })
}

// Writes a message in its compact form: fills the front of `out` and keeps the rest, and answers
// how many octets were written.
// Refused with 3, 10, 11, 12, 2, 13 in that order, and then `out` holds what it held.
pub fn write(
    code: u32,
    kind: u32,
    fixed: &[u8],
    first: &[u8],
    second: &[u8],
    optional: &[u8],
    out: &mut [u8],
) -> Result<usize, Refusal>
    ensures { leaving (told result) out.new ≡
        call_write_of code kind fixed.now first.now second.now
        optional.now out.old }
{
    if 255 < kind {
        return Err(Refusal::UnknownType(0));
    }
    let octet = kind as u8;
    let Some(shape) = shape_of(octet) else {
        return Err(Refusal::UnknownType(0));
    };
    let b = code / 256;
    let c = b / 256;
    let d = c / 256;
    let head = [
        (code % 256) as u8,
        (b % 256) as u8,
        (c % 256) as u8,
        (d % 256) as u8,
    ];
    filling::write_parts(
        shape,
        LONGEST as u16,
        &head,
        octet,
        fixed,
        first,
        second,
        &optional[0..0],
        optional,
        out,
    )
}

// Reads a message and writes it again, in its compact form: fills the front of `out` and keeps the
// rest, and answers how many octets were written.
// Refused with the reader's numbers and octets, then 12, then 13, and then
// `out` holds what it held.
pub fn compact(message: &[u8], out: &mut [u8]) -> Result<usize, Refusal>
    ensures { leaving (told result) out.new ≡
        call_compact_of message.now out.old }
{
    let row = shape_of(heads::kind_at(message, 4));
    let head = header(message);
    rewriting::rewrite(message, 4, LONGEST as u16, row, head, out)
}

// The octets of the code; of a message that is shorter, all that it has.
fn header(message: &[u8]) -> &[u8]
    ensures { result.now ≡ octets message.now 0 4 }
{
    if message.len() < 4 {
        return message;
    }
    &message[0..4]
}
