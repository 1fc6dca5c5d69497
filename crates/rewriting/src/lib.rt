// Reading a message of any family and writing it again, over the width of the header, the longest
// message and the shape row.
#![tactic(auto)]

ghost use Rattle.std.specs.Prelude.{◌≡◌, ◌≤◌, length};
ghost use Rattle.octets.specs.Told.{told};
ghost use Rattle.octets.specs.Answer.{accepted};
ghost use Rattle.octets.specs.Filled.{leaving};
ghost use Rattle.layout.specs.Container.{parts_of};
ghost use Rattle.parts.specs.Spans.{part_of};
ghost use Rattle.family.specs.Family.{rewrite_of};

use layout::Shape;
use octets::Refusal;
use parts::{Parts, Span};

// Reads a message of a family whose header has that width, whose longest message has `most` octets,
// and whose table says `row` of the message's type;
// and writes again what it says, with that header, in the compact form: fills the front of `out`
// and keeps the rest, and answers how many octets were written.
// Refused with the reader's numbers and octets, then 12, then 2 where a header that is wider than
// said makes it too long, then 13, and then `out` holds what it held.
pub fn rewrite(
    message: &[u8],
    width: u8,
    most: u16,
    row: Option<Shape>,
    head: &[u8],
    out: &mut [u8],
) -> Result<usize, Refusal>
    ensures { leaving (told result) out.new ≡
        rewrite_of message.now width most row head.now out.old }
{
    let parts = reading::read_parts(message, width, most as usize, row)?;
    let Some(shape) = row else {
        return Err(Refusal::UnknownType(0));
    };
    again(message, width, most, shape, parts, head, out)
}

// Writes again what a message says that reads so.
fn again(
    message: &[u8],
    width: u8,
    most: u16,
    shape: Shape,
    parts: Parts,
    head: &[u8],
    out: &mut [u8],
) -> Result<usize, Refusal>
    requires { parts_of message.now width most (Some shape) ≡ accepted parts }
    ensures { leaving (told result) out.new ≡
        rewrite_of message.now width most (Some shape) head.now
        out.old }
{
    let kind = heads::kind_at(message, width);
    let fixed = part_of(message, parts.fixed);
    let first = part_of(message, parts.first);
    let second = part_of(message, parts.second);
    let third = part_of(message, parts.third);
    let run = part_of(message, parts.optional);
    filling::write_parts(
        shape, most, head, kind, fixed, first, second, third, run, out,
    )
}

// The octets of a span of the message.
fn part_of(message: &[u8], span: Span) -> &[u8]
    requires { (span.from ≤ span.to) × (span.to ≤ length message.now) }
    ensures { result.now ≡ part_of message.now span }
{
    let from = span.from;
    let to = span.to;
    &message[from..to]
}
