// What the desk answers to the codec's requests: shape, read, write, compact, find.
#![tactic(auto)]

ghost use Rattle.std.specs.Prelude.{◌≡◌};
ghost use Rattle.finding.specs.Find.{locate_of};
ghost use Rattle.isup.specs.Write.{write_of, compact_of};
ghost use Rattle.finding.specs.Told.{located_told};
ghost use Rattle.printing.specs.Sheet.{sheet, pour};
ghost use Rattle.requests.specs.Words.{number_at, octets_at};
ghost use Rattle.requests.specs.Along.{said_in};
ghost use Rattle.lines.specs.Lines.{octets_line, compact_line, lent};
ghost use Rattle.codec_lines.specs.Codec.{found_line, codec_line_lem};

use fields::Field;
use finding::Located;
use forms::{COMPACT, READ, SHAPE, WRITE};
use octets::{Numbered, Refusal};
use requests::Request;

// Writes a message by its fields, and says what was written.
fn say_write(fields: [Field; 8], octets: &[u8], out: &mut [u8]) -> usize
    ensures { sheet out.new result ≡ pour (sheet out.old 0)
        (octets_line (write_of (number_at (said_in octets.now fields) 0) (number_at (said_in octets.now fields) 1)
        (octets_at (said_in octets.now fields) 2)
        (octets_at (said_in octets.now fields) 3)
        (octets_at (said_in octets.now fields) 4)
        (octets_at (said_in octets.now fields) 5)
        (lent (number_at (said_in octets.now fields) 6)))) }
{
    let circuit = fields[0];
    let kind = fields[1];
    let fixed = fields[2];
    let first = fields[3];
    let second = fields[4];
    let optional = fields[5];
    let room = fields[6];
    let mut space = pieces::blank_space();
    let buffer = pieces::front(&mut space, room.value as usize);
    let written = isup_codec::write(
        circuit.value,
        kind.value,
        pieces::stretch(octets, fixed.from, fixed.count as usize),
        pieces::stretch(octets, first.from, first.count as usize),
        pieces::stretch(octets, second.from, second.count as usize),
        pieces::stretch(octets, optional.from, optional.count as usize),
        buffer,
    );
    sayings::say_written(written, buffer, out)
}

// Writes a message again, and says what was written.
fn say_compact(fields: [Field; 8], octets: &[u8], out: &mut [u8]) -> usize
    ensures { sheet out.new result ≡ pour (sheet out.old 0)
        (compact_line (compact_of (octets_at (said_in octets.now fields) 0) (lent (number_at (said_in octets.now fields) 1)))) }
{
    let message = fields[0];
    let room = fields[1];
    let mut space = pieces::blank_space();
    let buffer = pieces::front(&mut space, room.value as usize);
    let written = isup_codec::compact(
        pieces::stretch(octets, message.from, message.count as usize),
        buffer,
    );
    sayings::say_again(written, buffer, out)
}

// Says where a parameter was found, with its contents; or the refusal with the reader's octet.
fn say_located(
    located: Result<Located, Refusal>,
    message: &[u8],
    defaults: &[u8],
    out: &mut [u8],
) -> usize
    ensures { sheet out.new result ≡
        pour (sheet out.old 0)
        (found_line message.now defaults.now (located_told located)) }
{
    match located {
        Ok(Located::Message(at, len)) => {
            sayings::put_shown(b"message ", pieces::stretch(message, at, len), out, 0)
        }
        Ok(Located::Defaults(at, len)) => {
            sayings::put_shown(b"defaults ", pieces::stretch(defaults, at, len), out, 0)
        }
        Err(why) => sayings::say_fault(why.number(), why.place(), out),
    }
}

// Finds a parameter, and says where it was found.
fn say_find(fields: [Field; 8], octets: &[u8], out: &mut [u8]) -> usize
    ensures { sheet out.new result ≡ pour (sheet out.old 0)
        (found_line (octets_at (said_in octets.now fields) 1) (octets_at (said_in octets.now fields) 2)
        (locate_of (octets_at (said_in octets.now fields) 1) (octets_at (said_in octets.now fields) 2) (number_at (said_in octets.now fields) 0))) }
{
    let name = fields[0];
    let message_field = fields[1];
    let defaults_field = fields[2];
    let message = pieces::stretch(octets, message_field.from, message_field.count as usize);
    let defaults = pieces::stretch(octets, defaults_field.from, defaults_field.count as usize);
    let located = locating::locate(message, defaults, name.value);
    say_located(located, message, defaults, out)
}

// Puts the answer's line to one of the codec's requests at the front of `out`, and answers the next
// place. What `out` has no room for is left out.
pub fn codec_line(request: Request, octets: &[u8], out: &mut [u8]) -> usize
    ensures { sheet out.new result ≡
        pour (sheet out.old 0)
        (codec_line_lem request.which (said_in octets.now request.fields)) }
{
    let fields = request.fields;
    if request.which == SHAPE {
        let kind = fields[0];
        return shape_lines::say_shape((kind.value % 256) as u8, out);
    }
    if request.which == READ {
        let message = fields[0];
        return message_lines::say_read(
            pieces::stretch(octets, message.from, message.count as usize),
            out,
        );
    }
    if request.which == WRITE {
        return say_write(fields, octets, out);
    }
    if request.which == COMPACT {
        return say_compact(fields, octets, out);
    }
    say_find(fields, octets, out)
}
