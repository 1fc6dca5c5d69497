// What the desk answers to SCCP's requests: sccp-shape, sccp-read, sccp-write, sccp-compact.
#![tactic(auto)]

ghost use Rattle.std.specs.Prelude.{◌≡◌};
ghost use Rattle.octets.specs.Answer.{accepted};
ghost use Rattle.sccp.specs.Read.{sccp_read_of};
ghost use Rattle.sccp.specs.Write.{sccp_write_of, sccp_compact_of};
ghost use Rattle.printing.specs.Sheet.{sheet, pour};
ghost use Rattle.requests.specs.Words.{number_at, octets_at};
ghost use Rattle.requests.specs.Along.{said_in};
ghost use Rattle.lines.specs.Lines.{octets_line, compact_line, lent};
ghost use Rattle.sccp_lines.specs.Sccp.{three_line, type_line, sccp_line_lem};

use fields::Field;
use forms::{SCCP_READ, SCCP_SHAPE, SCCP_WRITE};
use octets::Numbered;
use parts::Parts;
use requests::Request;
use sccp::Message;

// Puts the parts of a message from `at` on, the third contents too, and answers the next place.
fn put_three(message: &[u8], parts: Parts, out: &mut [u8], at: usize) -> usize
    ensures { sheet out.new result ≡
        pour (sheet out.old at) (three_line message.now parts) }
{
    let fixed = sayings::put_shown(
        b" fixed ",
        message_lines::part(message, parts.fixed),
        out,
        at,
    );
    let first = sayings::put_shown(
        b" first ",
        message_lines::part(message, parts.first),
        out,
        fixed,
    );
    let second = sayings::put_shown(
        b" second ",
        message_lines::part(message, parts.second),
        out,
        first,
    );
    let third = sayings::put_shown(
        b" third ",
        message_lines::part(message, parts.third),
        out,
        second,
    );
    sayings::put_shown(
        b" optional ",
        message_lines::part(message, parts.optional),
        out,
        third,
    )
}

// What a message says that reads so.
fn say_message(message: &[u8], x: Message, out: &mut [u8]) -> usize
    ensures { sheet out.new result ≡
        pour (sheet out.old 0)
        (type_line message.now (accepted x)) }
{
    let parts = x.parts;
    let kind = sayings::put_shown(b"type ", &[x.kind], out, 0);
    put_three(message, parts, out, kind)
}

// Says what a message says, or the refusal with its octet.
fn say_read(message: &[u8], out: &mut [u8]) -> usize
    ensures { sheet out.new result ≡
        pour (sheet out.old 0)
        (type_line message.now (sccp_read_of message.now)) }
{
    match sccp_codec::read(message) {
        Err(why) => sayings::say_fault(why.number(), why.place(), out),
        Ok(x) => say_message(message, x, out),
    }
}

// Writes a message by its fields, and says what was written.
fn say_write(fields: [Field; 8], octets: &[u8], out: &mut [u8]) -> usize
    ensures { sheet out.new result ≡ pour (sheet out.old 0)
        (octets_line (sccp_write_of (number_at (said_in octets.now fields) 0) (octets_at (said_in octets.now fields) 1)
        (octets_at (said_in octets.now fields) 2)
        (octets_at (said_in octets.now fields) 3)
        (octets_at (said_in octets.now fields) 4)
        (octets_at (said_in octets.now fields) 5)
        (lent (number_at (said_in octets.now fields) 6)))) }
{
    let kind = fields[0];
    let fixed = fields[1];
    let first = fields[2];
    let second = fields[3];
    let third = fields[4];
    let optional = fields[5];
    let room = fields[6];
    let mut space = pieces::blank_space();
    let buffer = pieces::front(&mut space, room.value as usize);
    let written = sccp_codec::write(
        kind.value,
        pieces::stretch(octets, fixed.from, fixed.count as usize),
        pieces::stretch(octets, first.from, first.count as usize),
        pieces::stretch(octets, second.from, second.count as usize),
        pieces::stretch(octets, third.from, third.count as usize),
        pieces::stretch(octets, optional.from, optional.count as usize),
        buffer,
    );
    sayings::say_written(written, buffer, out)
}

// Writes a message again, and says what was written.
fn say_compact(fields: [Field; 8], octets: &[u8], out: &mut [u8]) -> usize
    ensures { sheet out.new result ≡ pour (sheet out.old 0)
        (compact_line (sccp_compact_of (octets_at (said_in octets.now fields) 0) (lent (number_at (said_in octets.now fields) 1)))) }
{
    let message = fields[0];
    let room = fields[1];
    let mut space = pieces::blank_space();
    let buffer = pieces::front(&mut space, room.value as usize);
    let written = sccp_codec::compact(
        pieces::stretch(octets, message.from, message.count as usize),
        buffer,
    );
    sayings::say_again(written, buffer, out)
}

// Puts the answer's line to one of SCCP's requests at the front of `out`, and answers the next
// place. What `out` has no room for is left out.
pub fn sccp_line(request: Request, octets: &[u8], out: &mut [u8]) -> usize
    ensures { sheet out.new result ≡
        pour (sheet out.old 0)
        (sccp_line_lem request.which (said_in octets.now request.fields)) }
{
    let fields = request.fields;
    if request.which == SCCP_SHAPE {
        let kind = fields[0];
        return shape_lines::say_row(sccp_codec::shape_of((kind.value % 256) as u8), out);
    }
    if request.which == SCCP_READ {
        let message = fields[0];
        return say_read(
            pieces::stretch(octets, message.from, message.count as usize),
            out,
        );
    }
    if request.which == SCCP_WRITE {
        return say_write(fields, octets, out);
    }
    say_compact(fields, octets, out)
}
