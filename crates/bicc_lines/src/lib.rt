// What the desk answers to BICC's requests: bicc-shape, bicc-read, bicc-write, bicc-compact.
#![tactic(auto)]

ghost use Rattle.std.specs.Prelude.{◌≡◌};
ghost use Rattle.octets.specs.Answer.{accepted};
ghost use Rattle.bicc.specs.Read.{call_read_of};
ghost use Rattle.bicc.specs.Write.{call_write_of, call_compact_of};
ghost use Rattle.printing.specs.Sheet.{sheet, pour};
ghost use Rattle.requests.specs.Words.{number_at, octets_at};
ghost use Rattle.requests.specs.Along.{said_in};
ghost use Rattle.lines.specs.Lines.{octets_line, compact_line, lent};
ghost use Rattle.bicc_lines.specs.Bicc.{code_line, bicc_line_lem};

use bicc::Message;
use fields::Field;
use forms::{BICC_READ, BICC_SHAPE, BICC_WRITE};
use octets::Numbered;
use requests::Request;

// What a message says that reads so.
fn say_message(message: &[u8], x: Message, out: &mut [u8]) -> usize
    ensures { sheet out.new result ≡
        pour (sheet out.old 0)
        (code_line message.now (accepted x)) }
{
    let parts = x.parts;
    let code = sayings::put_count(b"code ", x.code as usize, out, 0);
    let kind = sayings::put_shown(b" type ", &[x.kind], out, code);
    message_lines::put_parts(message, parts, out, kind)
}

// Says what a message says, or the refusal with its octet.
fn say_read(message: &[u8], out: &mut [u8]) -> usize
    ensures { sheet out.new result ≡
        pour (sheet out.old 0)
        (code_line message.now (call_read_of message.now)) }
{
    match bicc_codec::read(message) {
        Err(why) => sayings::say_fault(why.number(), why.place(), out),
        Ok(x) => say_message(message, x, out),
    }
}

// Writes a message by its fields, and says what was written.
fn say_write(fields: [Field; 8], octets: &[u8], out: &mut [u8]) -> usize
    ensures { sheet out.new result ≡ pour (sheet out.old 0)
        (octets_line (call_write_of (number_at (said_in octets.now fields) 0) (number_at (said_in octets.now fields) 1)
        (octets_at (said_in octets.now fields) 2)
        (octets_at (said_in octets.now fields) 3)
        (octets_at (said_in octets.now fields) 4)
        (octets_at (said_in octets.now fields) 5)
        (lent (number_at (said_in octets.now fields) 6)))) }
{
    let code = fields[0];
    let kind = fields[1];
    let fixed = fields[2];
    let first = fields[3];
    let second = fields[4];
    let optional = fields[5];
    let room = fields[6];
    let mut space = pieces::blank_space();
    let buffer = pieces::front(&mut space, room.value as usize);
    let written = bicc_codec::write(
        code.value,
        kind.value,
        pieces::stretch(octets, fixed.from, fixed.count as usize),
        pieces::stretch(octets, first.from, first.count as usize),
        pieces::stretch(octets, second.from, second.count as usize),
        pieces::stretch(octets, optional.from, optional.count as usize),
        buffer,
    );
    sayings::say_written(written, buffer, out)
}

// Writes a message again, and says what was written.
fn say_compact(fields: [Field; 8], octets: &[u8], out: &mut [u8]) -> usize
    ensures { sheet out.new result ≡ pour (sheet out.old 0)
        (compact_line (call_compact_of (octets_at (said_in octets.now fields) 0) (lent (number_at (said_in octets.now fields) 1)))) }
{
    let message = fields[0];
    let room = fields[1];
    let mut space = pieces::blank_space();
    let buffer = pieces::front(&mut space, room.value as usize);
    let written = bicc_codec::compact(
        pieces::stretch(octets, message.from, message.count as usize),
        buffer,
    );
    sayings::say_again(written, buffer, out)
}

// Puts the answer's line to one of BICC's requests at the front of `out`, and answers the next
// place. What `out` has no room for is left out.
pub fn bicc_line(request: Request, octets: &[u8], out: &mut [u8]) -> usize
    ensures { sheet out.new result ≡
        pour (sheet out.old 0)
        (bicc_line_lem request.which (said_in octets.now request.fields)) }
{
    let fields = request.fields;
    if request.which == BICC_SHAPE {
        let kind = fields[0];
        return shape_lines::say_row(bicc_codec::shape_of((kind.value % 256) as u8), out);
    }
    if request.which == BICC_READ {
        let message = fields[0];
        return say_read(
            pieces::stretch(octets, message.from, message.count as usize),
            out,
        );
    }
    if request.which == BICC_WRITE {
        return say_write(fields, octets, out);
    }
    say_compact(fields, octets, out)
}
