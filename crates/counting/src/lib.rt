// The calls of the hub and of the desk, with the totals of busy circuits. After an accepted call
// each block that holds a named circuit is counted again.
#![tactic(auto)]

ghost use Rattle.std.specs.Prelude.{◌≡◌};
ghost use Rattle.octets.specs.Told.{told};
ghost use Rattle.rights.specs.Tables.{tables};
ghost use Rattle.board.specs.Board.{board_after, board_of, desk_board_of};

use blocks::BLOCKS;
use octets::Refusal;

// A message from a sender: as the hub answers it, and the totals of the blocks that hold a named
// circuit become the counts of their rows, whatever they were; every other total stays.
// Refused in the hub's order, 16 also where there are not 64 totals; a refusal changes no row, no
// total and no octet of `answer`.
pub fn act(
    states: &mut [u8],
    owners: &[u8],
    helpers: &[u8],
    totals: &mut [u8],
    sender: u32,
    message: &[u8],
    answer: &mut [u8],
) -> Result<usize, Refusal>
    ensures { board_after (told result) states.new totals.new
        answer.new ≡
        board_of (tables states.old owners.now helpers.now)
        totals.old sender message.now answer.old }
{
    if totals.len() != BLOCKS {
        return Err(Refusal::WrongTables);
    }
    let done = handling::handle(states, owners, helpers, sender, message, answer)?;
    blocks::recount(states, totals, done.first, done.last);
    Ok(done.count)
}

// A call of our own desk: as `desk_calls::desk_call`, and the total of the
// circuit's block becomes the count of its rows.
// Refused in order: 16 where there are not 4096 states and 64 totals, 9, 20,
// 13; a refusal changes nothing.
pub fn desk_call(
    states: &mut [u8],
    totals: &mut [u8],
    circuit: u32,
    set: bool,
    answer: &mut [u8],
) -> Result<usize, Refusal>
    ensures { board_after (told result) states.new totals.new
        answer.new ≡
        desk_board_of states.old totals.old circuit set
        answer.old }
{
    if totals.len() != BLOCKS {
        return Err(Refusal::WrongTables);
    }
    let n = desk_calls::desk_call(states, circuit, set, answer)?;
    blocks::recount(states, totals, circuit as usize, circuit as usize);
    Ok(n)
}
