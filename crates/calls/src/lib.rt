// BICC for C and Rust: reading and writing. With `llachurep` and its like they are one library.
// They are a crate of their own so that its object has one reader and one writer of parts, which
// the compiler puts where they are called.
#![tactic(auto)]

ghost use Rattle.std.specs.Prelude.{◌≡◌, ◌≤◌, length};
ghost use Rattle.octets.specs.Filled.{filled};
ghost use Rattle.parts.specs.Spans.{span_size};
ghost use Rattle.bicc.specs.Write.{call_write_of};
ghost use Rattle.boundary.specs.Boundary.{given, given_by, fixed_start_lem, SmallParts};
ghost use Rattle.calls.specs.Calls.{call_values_of, call_read_gives};

use bicc::Message;
use octets::Refusal;
use parts::Span;

// How many octets a span has.
fn size_of(span: Span) -> u32
    requires { (span.from ≤ span.to) × (span.to ≤ 65535) }
    ensures { result ≡ span_size span }
{
    (span.to - span.from) as u32
}

// Where the fixed part starts, 0 for a type that has none.
fn fixed_start(span: Span) -> u32
    requires { span.from ≤ 65535 }
    ensures { result ≡ fixed_start_lem span }
{
    if span.from == span.to {
        return 0;
    }
    span.from as u32
}

// Puts the ten numbers of a message to the front of `parts`.
fn put_call_values(x: Message, parts: &mut [u32])
    requires { SmallParts x.parts × (10 ≤ length parts.old) }
    ensures { parts.new ≡ filled (call_values_of x) parts.old }
{
    let p = x.parts;
    let first = p.first;
    let second = p.second;
    let optional = p.optional;
    parts[0] = x.code;
    parts[1] = x.kind as u32;
    parts[2] = fixed_start(p.fixed);
    parts[3] = size_of(p.fixed);
    parts[4] = first.from as u32;
    parts[5] = size_of(first);
    parts[6] = second.from as u32;
    parts[7] = size_of(second);
    parts[8] = optional.from as u32;
    parts[9] = size_of(optional);
}

// Reads a BICC message. Accepted: 10, and parts[0..10) are code, type, then start and length of the
// fixed part, of the first and of the second contents, and of the optional run, each 0, 0 where
// there is none. Refused with the reader's numbers and octets, then 13.
#[unsafe(no_mangle)]
pub extern "C" fn llachurep_bicc_read(message: &[u8], parts: &mut [u32]) -> u32
    ensures { given result parts.new ≡
        given_by (call_read_gives message.now parts.old) }
{
    match bicc_codec::read(message) {
        Err(why) => telling::refused(why),
        Ok(x) => {
            if parts.len() < 10 {
                return telling::refused(Refusal::NoRoom);
            }
            put_call_values(x, parts);
            10
        }
    }
}

// Writes a BICC message in its compact form to the front of `out`. Accepted: how many octets were
// written. Refused with 3, 10, 11, 12, 2, 13.
#[unsafe(no_mangle)]
pub extern "C" fn llachurep_bicc_write(
    code: u32,
    kind: u32,
    fixed: &[u8],
    first: &[u8],
    second: &[u8],
    optional: &[u8],
    out: &mut [u8],
) -> u32
    ensures { given result out.new ≡
        given_by (call_write_of code kind fixed.now first.now second.now optional.now out.old) }
{
    telling::written(bicc_codec::write(code, kind, fixed, first, second, optional, out))
}
