// ISUP: the 24 types, the circuit number, the reader and the writer.
#![tactic(auto)]

ghost use Rattle.std.specs.Prelude.{◌≡◌, ◌+◌, ◌≤◌, ◌<◌, length};
ghost use Rattle.octets.specs.Told.{told};
ghost use Rattle.octets.specs.Filled.{leaving};
ghost use Rattle.isup.specs.Table.{shape_of};
ghost use Rattle.isup.specs.Read.{circuit_of_lem, read_of};
ghost use Rattle.isup.specs.Write.{write_of, compact_of};

use isup::{LAST_CIRCUIT, LONGEST, Message};
use layout::Shape;
use octets::Refusal;
use shapes::SHAPES;

mod shapes;

// What the table says of a type octet: its shape row, or that it is not in the table. One answer
// for each of the 256, by one look-up.
pub fn shape_of(kind: u8) -> Option<Shape>
    ensures { result ≡ shape_of kind }
{
    heads::row_of(SHAPES[kind as usize])
}

// The circuit number: low eight bits first, high four bits in the low half of octet 1.
fn circuit_of(message: &[u8]) -> u16
    requires { 2 ≤ length message.now }
    ensures { result ≡ circuit_of_lem message.now }
{
    message[0] as u16 + 256 * (message[1] as u16 % 16)
}

// Reads a message: its circuit, its type and where its parts stand; or the refusal's number with
// the octet that it is about, 0 for 1 and 2.
pub fn read(message: &[u8]) -> Result<Message, Refusal>
    ensures { told result ≡ read_of message.now }
{
    let kind = heads::kind_at(message, 2);
    let parts = reading::read_parts(message, 2, LONGEST, shape_of(kind))?;
    Ok(Message {
        circuit: circuit_of(message),
        kind,
        parts,
    })
}

// Writes a message in its compact form: fills the front of `out` and keeps the rest, and answers
// how many octets were written.
// Refused with 9, 3, 10, 11, 12, 2, 13 in that order, and then `out` holds what it held.
pub fn write(
    circuit: u32,
    kind: u32,
    fixed: &[u8],
    first: &[u8],
    second: &[u8],
    optional: &[u8],
    out: &mut [u8],
) -> Result<usize, Refusal>
    ensures { leaving (told result) out.new ≡
        write_of circuit kind fixed.now first.now second.now
        optional.now out.old }
{
    if LAST_CIRCUIT < circuit {
        return Err(Refusal::NoCircuit);
    }
    if 255 < kind {
        return Err(Refusal::UnknownType(0));
    }
    let octet = kind as u8;
    let Some(shape) = shape_of(octet) else {
        return Err(Refusal::UnknownType(0));
    };
    let head = [(circuit % 256) as u8, (circuit / 256) as u8];
    filling::write_parts(
        shape,
        LONGEST as u16,
        &head,
        octet,
        fixed,
        first,
        second,
        &optional[0..0],
        optional,
        out,
    )
}

// Reads a message and writes it again, in its compact form: fills the front of `out` and keeps the
// rest, and answers how many octets were written.
// Refused with the reader's numbers and octets, then 12, then 13, and then
// `out` holds what it held.
pub fn compact(message: &[u8], out: &mut [u8]) -> Result<usize, Refusal>
    ensures { leaving (told result) out.new ≡
        compact_of message.now out.old }
{
    let kind = heads::kind_at(message, 2);
    let head = [heads::kind_at(message, 0), heads::kind_at(message, 1) % 16];
    rewriting::rewrite(message, 2, LONGEST as u16, shape_of(kind), &head, out)
}
