// What the desk answers to block and unblock, which set or end our own block on a circuit, and what
// they leave in the states and the totals.
#![tactic(auto)]

ghost use Rattle.std.specs.Prelude.{◌≡◌, []};
ghost use Rattle.octets.specs.Told.{told};
ghost use Rattle.printing.specs.Sheet.{sheet, pour};
ghost use Rattle.requests.specs.Along.{said_in};
ghost use Rattle.block_lines.specs.Blocks.{notice_line, block_done, blocked, blocked_by};

use forms::BLOCK;
use octets::{Numbered, Refusal};
use requests::Request;

// What the desk call answered, its octets at the front of a buffer, or the refusal.
#[tactic(auto, unfolding(crate::specs::Blocks::notice_line))]
fn say_noticed(noticed: Result<usize, Refusal>, buffer: &[u8], out: &mut [u8]) -> usize
    ensures { sheet out.new result ≡
        pour (sheet out.old 0)
        (notice_line (told noticed) buffer.now) }
{
    match noticed {
        Ok(n) => sayings::put_shown(b"answer ", pieces::stretch(buffer, 0, n), out, 0),
        Err(why) => sayings::say_refusal(why.number(), out),
    }
}

// Sets the block of a circuit from our side, or clears it, puts the line with the BLO
// or UBL to send at the front of `out`, and answers the next place. Its fields are
// numbers, so the scratch says nothing of them.
pub fn block_turn(request: Request, states: &mut [u8], totals: &mut [u8], out: &mut [u8]) -> usize
    ensures { blocked states.new totals.new (sheet out.new result) ≡
        blocked_by (block_done states.old totals.old request.which (said_in [] request.fields)) (sheet out.old 0) }
{
    let fields = request.fields;
    let circuit = fields[0];
    let room = fields[1];
    let mut space = pieces::blank_space();
    let buffer = pieces::front(&mut space, room.value as usize);
    let noticed = counting::desk_call(
        states,
        totals,
        circuit.value,
        request.which == BLOCK,
        buffer,
    );
    say_noticed(noticed, buffer, out)
}
