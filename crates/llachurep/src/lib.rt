// The boundary: the proved functions for C and Rust. Here are those on ISUP messages; those
// that serve all families of messages are in `families`, BICC's in `calls`, SCCP's in
// `roaming`, called party numbers in `numbers`, the tables of circuits in `circuits`,
// `occupancy` and `nights`, velocities in `speeds`. Answers are one number, 65536 * N + v: N
// is the refusal's number, 0 where there is none; v is then the octet that it is about, 0
// where it is about none. A refusal changes nothing that was lent.
#![tactic(auto)]

ghost use Rattle.std.specs.Prelude.{◌≡◌, ◌≤◌, length, [], ◌∷◌};
ghost use Rattle.octets.specs.Filled.{done, room_for, filled};
ghost use Rattle.isup.specs.Write.{write_of};
ghost use Rattle.parts.specs.Spans.{span_size};
ghost use Rattle.boundary.specs.Boundary.{given, given_by, fixed_start_lem};
ghost use Rattle.llachurep.specs.Gives.{values_of, Small, read_gives, find_gives};

use finding::Located;
use isup::Message;
use octets::Refusal;
use parts::Span;

// How many octets a span has.
fn size_of(span: Span) -> u16
    requires { (span.from ≤ span.to) × (span.to ≤ 65535) }
    ensures { result ≡ span_size span }
{
    (span.to - span.from) as u16
}

// Where the fixed part starts, 0 for a type that has none.
fn fixed_start(span: Span) -> u16
    requires { span.from ≤ 65535 }
    ensures { result ≡ fixed_start_lem span }
{
    if span.from == span.to {
        return 0;
    }
    span.from as u16
}

// Puts the ten numbers of a message to the front of `parts`.
fn put_values(x: Message, parts: &mut [u16])
    requires { Small x × (10 ≤ length parts.old) }
    ensures { parts.new ≡ filled (values_of x) parts.old }
{
    let p = x.parts;
    let first = p.first;
    let second = p.second;
    let optional = p.optional;
    parts[0] = x.circuit;
    parts[1] = x.kind as u16;
    parts[2] = fixed_start(p.fixed);
    parts[3] = size_of(p.fixed);
    parts[4] = first.from as u16;
    parts[5] = size_of(first);
    parts[6] = second.from as u16;
    parts[7] = size_of(second);
    parts[8] = optional.from as u16;
    parts[9] = size_of(optional);
}

// Reads a message. Accepted: 10, and parts[0..10) are circuit, type, then start and length of the
// fixed part, of the first and of the second contents, and of the optional run, each 0, 0 where
// there is none. Refused with the reader's numbers and octets, then 13.
#[unsafe(no_mangle)]
pub extern "C" fn llachurep_read(message: &[u8], parts: &mut [u16]) -> u32
    ensures { given result parts.new ≡
        given_by (read_gives message.now parts.old) }
{
    match isup_codec::read(message) {
        Err(why) => telling::refused(why),
        Ok(x) => {
            if parts.len() < 10 {
                return telling::refused(Refusal::NoRoom);
            }
            put_values(x, parts);
            10
        }
    }
}

// Writes a message in its compact form to the front of `out`. Accepted: how many octets were
// written. Refused with 9, 3, 10, 11, 12, 2, 13.
#[unsafe(no_mangle)]
pub extern "C" fn llachurep_write(
    circuit: u32,
    kind: u32,
    fixed: &[u8],
    first: &[u8],
    second: &[u8],
    optional: &[u8],
    out: &mut [u8],
) -> u32
    ensures { given result out.new ≡
        given_by (write_of circuit kind fixed.now first.now second.now optional.now out.old) }
{
    telling::written(isup_codec::write(circuit, kind, fixed, first, second, optional, out))
}

// Gives a stretch's start and length, or 13.
fn give_stretch(at: usize, len: usize, holder: u32, stretch: &mut [usize]) -> u32
    ensures { given result stretch.new ≡
        given_by (done stretch.old (room_for stretch.old (holder, at ∷ len ∷ []))) }
{
    if stretch.len() < 2 {
        return telling::refused(Refusal::NoRoom);
    }
    stretch[0] = at;
    stretch[1] = len;
    holder
}

// Finds a parameter. Accepted: 0 where the message held it, 100 where the defaults did, and
// stretch[0..2) are start and length within whichever held it. Refused with the reader's numbers
// and octets, 11, 15, then 13.
#[unsafe(no_mangle)]
pub extern "C" fn llachurep_find(
    message: &[u8],
    defaults: &[u8],
    name: u32,
    stretch: &mut [usize],
) -> u32
    ensures { given result stretch.new ≡
        given_by (find_gives message.now defaults.now name stretch.old) }
{
    match locating::locate(message, defaults, name) {
        Ok(Located::Message(at, len)) => give_stretch(at, len, 0, stretch),
        Ok(Located::Defaults(at, len)) => give_stretch(at, len, 100, stretch),
        Err(why) => telling::refused(why),
    }
}
