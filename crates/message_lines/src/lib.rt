// What the desk says of a message.
#![tactic(auto)]

ghost use Rattle.std.specs.Prelude.{◌≡◌};
ghost use Rattle.octets.specs.Answer.{accepted};
ghost use Rattle.parts.specs.Spans.{part_of};
ghost use Rattle.isup.specs.Read.{read_of};
ghost use Rattle.printing.specs.Sheet.{sheet, pour};
ghost use Rattle.read_lines.specs.Read.{parts_line, read_line};

use isup::Message;
use octets::Numbered;
use parts::{Parts, Span};

// The octets of a span of a message, as many of them as there are.
pub fn part(message: &[u8], span: Span) -> &[u8]
    ensures { result.now ≡ part_of message.now span }
{
    let from = span.from;
    let to = span.to;
    if to < from {
        return pieces::stretch(message, from, 0);
    }
    pieces::stretch(message, from, to - from)
}

// Puts the parts of a message of any family from `at` on, and answers the next place. A third
// variable part is not shown.
pub fn put_parts(message: &[u8], parts: Parts, out: &mut [u8], at: usize) -> usize
    ensures { sheet out.new result ≡
        pour (sheet out.old at) (parts_line message.now parts) }
{
    let fixed = sayings::put_shown(b" fixed ", part(message, parts.fixed), out, at);
    let first = sayings::put_shown(b" first ", part(message, parts.first), out, fixed);
    let second = sayings::put_shown(b" second ", part(message, parts.second), out, first);
    sayings::put_shown(b" optional ", part(message, parts.optional), out, second)
}

// What a message says that reads so.
fn say_message(message: &[u8], x: Message, out: &mut [u8]) -> usize
    ensures { sheet out.new result ≡
        pour (sheet out.old 0)
        (read_line message.now (accepted x)) }
{
    let parts = x.parts;
    let circuit = sayings::put_count(b"circuit ", x.circuit as usize, out, 0);
    let kind = sayings::put_shown(b" type ", &[x.kind], out, circuit);
    put_parts(message, parts, out, kind)
}

// Puts what a message says at the front of `out`, and answers the next place.
pub fn say_read(message: &[u8], out: &mut [u8]) -> usize
    ensures { sheet out.new result ≡
        pour (sheet out.old 0)
        (read_line message.now (read_of message.now)) }
{
    match isup_codec::read(message) {
        Err(why) => sayings::say_fault(why.number(), why.place(), out),
        Ok(x) => say_message(message, x, out),
    }
}
