// What the desk answers to the hub's request (act), and what it leaves in the tables.
#![tactic(auto)]

ghost use Rattle.std.specs.Prelude.{◌≡◌};
ghost use Rattle.octets.specs.Told.{told};
ghost use Rattle.printing.specs.Sheet.{sheet, pour};
ghost use Rattle.requests.specs.Along.{said_in};
ghost use Rattle.table_lines.specs.Tables.{desk_tables, left, left_by};
ghost use Rattle.act_lines.specs.Acts.{reply_line, act_turn_lem};

use octets::{Numbered, Refusal};
use requests::Request;

// What the hub answered, its octets at the front of a buffer; or the
// refusal with the reader's octet.
#[tactic(auto, unfolding(crate::specs::Acts::reply_line))]
fn say_acted(acted: Result<usize, Refusal>, buffer: &[u8], out: &mut [u8]) -> usize
    ensures { sheet out.new result ≡
        pour (sheet out.old 0) (reply_line (told acted) buffer.now) }
{
    match acted {
        Ok(n) => sayings::put_shown(b"answer ", pieces::stretch(buffer, 0, n), out, 0),
        Err(why) => sayings::say_fault(why.number(), why.place(), out),
    }
}

// Hands the message of an act to the hub, puts its line at the front of
// `out`, and answers the next place.
pub fn act_turn(
    request: Request,
    octets: &[u8],
    states: &mut [u8],
    owners: &[u8],
    helpers: &[u8],
    totals: &mut [u8],
    out: &mut [u8],
) -> usize
    ensures { left (desk_tables states.new owners.now helpers.now totals.new) (sheet out.new result) ≡
        left_by (act_turn_lem (desk_tables states.old owners.now helpers.now totals.old) (said_in octets.now request.fields)) (sheet out.old 0) }
{
    let fields = request.fields;
    let sender = fields[0];
    let message = fields[1];
    let room = fields[2];
    let mut space = pieces::blank_space();
    let buffer = pieces::front(&mut space, room.value as usize);
    let acted = counting::act(
        states,
        owners,
        helpers,
        totals,
        sender.value,
        pieces::stretch(octets, message.from, message.count as usize),
        buffer,
    );
    say_acted(acted, buffer, out)
}
