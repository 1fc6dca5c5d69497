// What the desk answers to the requests for called party numbers: number, dial.
#![tactic(auto)]

ghost use Rattle.std.specs.Prelude.{◌≡◌};
ghost use Rattle.octets.specs.Told.{told};
ghost use Rattle.number.specs.Read.{read_number_of};
ghost use Rattle.dialling.specs.Write.{write_number_of};
ghost use Rattle.printing.specs.Sheet.{sheet, pour};
ghost use Rattle.requests.specs.Along.{said_in};
ghost use Rattle.lines.specs.Lines.{octets_line, lent};
ghost use Rattle.number_lines.specs.Numbers.{signals_line, number_line, numbers_line_lem};

use forms::NUMBER;
use number::Number;
use octets::{Numbered, Refusal};
use requests::Request;

// What reading a number found, its signals at the front of a buffer.
#[tactic(auto, unfolding(crate::specs::Numbers::signals_line))]
fn say_values(values: Result<Number, Refusal>, buffer: &[u8], out: &mut [u8]) -> usize
    ensures { sheet out.new result ≡
        pour (sheet out.old 0)
        (signals_line (told values) buffer.now) }
{
    match values {
        Err(why) => sayings::say_refusal(why.number(), out),
        Ok(x) => {
            let nature = sayings::put_count(b"nature ", x.nature as usize, out, 0);
            let plan = sayings::put_count(b" plan ", x.plan as usize, out, nature);
            let internal = sayings::put_count(b" internal ", x.internal as usize, out, plan);
            sayings::put_shown(
                b" signals ",
                pieces::stretch(buffer, 0, x.count),
                out,
                internal,
            )
        }
    }
}

// Reads a number, and says what it is.
fn say_number(contents: &[u8], room: usize, out: &mut [u8]) -> usize
    ensures { sheet out.new result ≡
        pour (sheet out.old 0)
        (number_line (read_number_of contents.now (lent room))) }
{
    let mut space = pieces::blank_space();
    let buffer = pieces::front(&mut space, room);
    let values = signals::read_number(contents, buffer);
    say_values(values, buffer, out)
}

// Writes a number, and says what was written.
fn say_dial(
    nature: u32,
    plan: u32,
    internal: u32,
    signals: &[u8],
    room: usize,
    out: &mut [u8],
) -> usize
    ensures { sheet out.new result ≡
        pour (sheet out.old 0)
        (octets_line (write_number_of nature plan internal signals.now (lent room))) }
{
    let mut space = pieces::blank_space();
    let buffer = pieces::front(&mut space, room);
    let written = keying::write_number(nature, plan, internal, signals, buffer);
    sayings::say_written(written, buffer, out)
}

// Puts the answer's line to a request for a called party number at the front of `out`, and answers
// the next place. What `out` has no room for is left out.
#[tactic(auto, unfolding(crate::specs::Numbers::numbers_line_lem))]
pub fn numbers_line(request: Request, octets: &[u8], out: &mut [u8]) -> usize
    ensures { sheet out.new result ≡
        pour (sheet out.old 0)
        (numbers_line_lem request.which (said_in octets.now request.fields)) }
{
    let fields = request.fields;
    if request.which == NUMBER {
        let contents = fields[0];
        let room = fields[1];
        return say_number(
            pieces::stretch(octets, contents.from, contents.count as usize),
            room.value as usize,
            out,
        );
    }
    let nature = fields[0];
    let plan = fields[1];
    let internal = fields[2];
    let signals = fields[3];
    let room = fields[4];
    say_dial(
        nature.value,
        plan.value,
        internal.value,
        pieces::stretch(octets, signals.from, signals.count as usize),
        room.value as usize,
        out,
    )
}
