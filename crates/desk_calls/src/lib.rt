// A block that our own desk sets or takes away, and the message that tells of it.
#![tactic(auto)]

ghost use Rattle.std.specs.Prelude.{◌≡◌};
ghost use Rattle.octets.specs.Told.{told};
ghost use Rattle.hub.specs.Acts.{after};
ghost use Rattle.hub.specs.Desk.{desk_of};

use octets::Refusal;
use rows::CIRCUITS;

// A call of our own desk: sets the block of a circuit from our side, or clears it, whoever owns the
// circuit. The BLO or UBL to send fills the front of `answer` and its count is given.
// Refused in order: 16 where there are not 4096 states, 9 for a circuit above 4095, 20 where its
// row is not legal, 13 for fewer than three octets of `answer`; a refusal changes nothing.
pub fn desk_call(
    states: &mut [u8],
    circuit: u32,
    set: bool,
    answer: &mut [u8],
) -> Result<usize, Refusal>
    ensures { after (told result) states.new answer.new ≡
        desk_of states.old circuit set answer.old }
{
    if states.len() != CIRCUITS {
        return Err(Refusal::WrongTables);
    }
    if circuit > 4095 {
        return Err(Refusal::NoCircuit);
    }
    let row = states[circuit as usize];
    if !changes::legal(row) {
        return Err(Refusal::IllegalRow);
    }
    let n = replying::notice(circuit as u16, set, answer)?;
    states[circuit as usize] = changes::local_block(set, row);
    Ok(n)
}
