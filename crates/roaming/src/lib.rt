// SCCP for C and Rust: reading and writing. With `llachurep` and its like they are one library.
// They are a crate of their own so that its object has one reader and one writer of parts, which
// the compiler puts where they are called.
#![tactic(auto)]

ghost use Rattle.std.specs.Prelude.{◌≡◌, ◌≤◌, length};
ghost use Rattle.octets.specs.Filled.{filled};
ghost use Rattle.parts.specs.Spans.{span_size};
ghost use Rattle.sccp.specs.Write.{sccp_write_of};
ghost use Rattle.boundary.specs.Boundary.{given, given_by, fixed_start_lem};
ghost use Rattle.roaming.specs.Roaming.{SmallSccp, sccp_values_of, sccp_read_gives};

use octets::Refusal;
use parts::Span;
use sccp::Message;

// How many octets a span has.
fn size_of(span: Span) -> u16
    requires { (span.from ≤ span.to) × (span.to ≤ 65535) }
    ensures { result ≡ span_size span }
{
    (span.to - span.from) as u16
}

// Where the fixed part starts, 0 for a type that has none.
fn fixed_start(span: Span) -> u16
    requires { span.from ≤ 65535 }
    ensures { result ≡ fixed_start_lem span }
{
    if span.from == span.to {
        return 0;
    }
    span.from as u16
}

// Puts the eleven numbers of a message to the front of `parts`.
fn put_sccp_values(x: Message, parts: &mut [u16])
    requires { SmallSccp x × (11 ≤ length parts.old) }
    ensures { parts.new ≡ filled (sccp_values_of x) parts.old }
{
    let p = x.parts;
    let first = p.first;
    let second = p.second;
    let third = p.third;
    let optional = p.optional;
    parts[0] = x.kind as u16;
    parts[1] = fixed_start(p.fixed);
    parts[2] = size_of(p.fixed);
    parts[3] = first.from as u16;
    parts[4] = size_of(first);
    parts[5] = second.from as u16;
    parts[6] = size_of(second);
    parts[7] = third.from as u16;
    parts[8] = size_of(third);
    parts[9] = optional.from as u16;
    parts[10] = size_of(optional);
}

// Reads an SCCP message. Accepted: 11, and parts[0..11) are type, then start and length of the
// fixed part, of the first, the second and the third contents, and of the optional run, each 0, 0
// where there is none. Refused with the reader's numbers and octets, then 13.
#[unsafe(no_mangle)]
pub extern "C" fn llachurep_sccp_read(message: &[u8], parts: &mut [u16]) -> u32
    ensures { given result parts.new ≡
        given_by (sccp_read_gives message.now parts.old) }
{
    match sccp_codec::read(message) {
        Err(why) => telling::refused(why),
        Ok(x) => {
            if parts.len() < 11 {
                return telling::refused(Refusal::NoRoom);
            }
            put_sccp_values(x, parts);
            11
        }
    }
}

// Writes an SCCP message in its compact form to the front of `out`. Accepted: how many octets were
// written. Refused with 3, 10, 11, 12, 2, 13.
#[unsafe(no_mangle)]
pub extern "C" fn llachurep_sccp_write(
    kind: u32,
    fixed: &[u8],
    first: &[u8],
    second: &[u8],
    third: &[u8],
    optional: &[u8],
    out: &mut [u8],
) -> u32
    ensures { given result out.new ≡
        given_by (sccp_write_of kind fixed.now first.now second.now third.now optional.now out.old) }
{
    telling::written(sccp_codec::write(kind, fixed, first, second, third, optional, out))
}
