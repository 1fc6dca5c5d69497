// What answers an act: the octets of messages in the compact form, with the circuit that the act
// named. Nothing here looks at owners, or changes a row.
#![tactic(auto)]

ghost use Rattle.std.specs.Prelude.{◌≡◌, [], ◌∷◌, ◌+◌, ◌≤◌, length};
ghost use Rattle.octets.specs.Told.{told};
ghost use Rattle.std.proofs.lemmas.List.Edits.{sets};
ghost use Rattle.octets.specs.Filled.{leaving};
ghost use Rattle.isup.specs.Types.{RLC, BLO, GRA, CQR};
ghost use Rattle.asks.specs.Asks.{width};
ghost use Rattle.replies.specs.Replies.{headed, range_and_status, status_given, status_locked, range_and_states, completion, notice_of, answer_to, sent};

use isup::{BLA, BLO, CGBA, CGUA, CQR, GRA, RLC, UBA, UBL};
use octets::Refusal;
use rows::Act;

// Writes the circuit, low eight bits first, and the type from octet `at` on.
fn write_head(circuit: u16, kind: u8, answer: &mut [u8], at: usize)
    requires { at + 3 ≤ length answer.old }
    ensures { answer.new ≡ sets answer.old at (headed circuit kind []) }
{
    answer[at] = (circuit % 256) as u8;
    answer[at + 1] = (circuit / 256) as u8;
    answer[at + 2] = kind;
}

// Writes range and status, the one variable parameter, from octet `at` on: its pointer, its length
// octet, the range, the status.
fn write_status(range: u8, status: &[u8], answer: &mut [u8], at: usize)
    requires { at + 3 + width range ≤ length answer.old }
    ensures { answer.new ≡
        sets answer.old at (range_and_status range (status_given range status.now)) }
{
    let width = range / 8 + 1;
    answer[at] = 1;
    answer[at + 1] = 1 + width;
    answer[at + 2] = range;
    for j in 0..width as usize {
        answer[at + 3 + j] = marks::status_octet(range, status, j);
    }
}

// Writes range and status from octet 3 on, as GRA has them: a 1 for each
// circuit of the group that is locally blocked.
fn write_locks(range: u8, group: &[u8], answer: &mut [u8])
    requires { 6 + width range ≤ length answer.old }
    ensures { answer.new ≡
        sets answer.old 3 (range_and_status range (status_locked range group.now)) }
{
    let width = range / 8 + 1;
    answer[3] = 1;
    answer[4] = 1 + width;
    answer[5] = range;
    for j in 0..width {
        answer[6 + j as usize] = marks::locked_octet(range, group, j);
    }
}

// Writes range and circuit states, the two variable parameters, from octet 3 on: their pointers,
// then each with its length octet.
fn write_states(range: u8, group: &[u8], answer: &mut [u8])
    requires { 9 + range ≤ length answer.old }
    ensures { answer.new ≡
        sets answer.old 3 (range_and_states range group.now) }
{
    let count = range as usize + 1;
    answer[3] = 2;
    answer[4] = 3;
    answer[5] = 1;
    answer[6] = range;
    answer[7] = (count % 256) as u8;
    for i in 0..count {
        answer[8 + i] = changes::circuit_state(changes::octet_at(group, i));
    }
}

// BLA, UBA: the circuit and the type alone.
fn answer_plain(circuit: u16, kind: u8, answer: &mut [u8]) -> Result<usize, Refusal>
    ensures { leaving (told result) answer.new ≡
        sent (headed circuit kind []) answer.old }
{
    if answer.len() < 3 {
        return Err(Refusal::NoRoom);
    }
    write_head(circuit, kind, answer, 0);
    Ok(3)
}

// RLC: the pointer 0, no optional part.
fn answer_complete(circuit: u16, answer: &mut [u8]) -> Result<usize, Refusal>
    ensures { leaving (told result) answer.new ≡
        sent (headed circuit RLC (0 ∷ [])) answer.old }
{
    if answer.len() < 4 {
        return Err(Refusal::NoRoom);
    }
    write_head(circuit, RLC, answer, 0);
    answer[3] = 0;
    Ok(4)
}

// BLO and then RLC, one after the other.
fn answer_locked(circuit: u16, answer: &mut [u8]) -> Result<usize, Refusal>
    ensures { leaving (told result) answer.new ≡
        sent (headed circuit BLO (headed circuit RLC (0 ∷ []))) answer.old }
{
    if answer.len() < 7 {
        return Err(Refusal::NoRoom);
    }
    write_head(circuit, BLO, answer, 0);
    write_head(circuit, RLC, answer, 3);
    answer[6] = 0;
    Ok(7)
}

// What answers RSC: RLC, and BLO before it where the circuit's row says that it is locally blocked.
fn answer_clear(circuit: u16, row: u8, answer: &mut [u8]) -> Result<usize, Refusal>
    ensures { leaving (told result) answer.new ≡
        sent (completion circuit row) answer.old }
{
    if row / 8 % 2 == 1 {
        return answer_locked(circuit, answer);
    }
    answer_complete(circuit, answer)
}

// GRA: range and status, from the rows of the group.
fn answer_reset(circuit: u16, range: u8, group: &[u8], answer: &mut [u8]) -> Result<usize, Refusal>
    ensures { leaving (told result) answer.new ≡
        sent (headed circuit GRA (range_and_status range (status_locked range group.now)))
        answer.old }
{
    let size = 7 + (range / 8) as usize;
    if answer.len() < size {
        return Err(Refusal::NoRoom);
    }
    write_head(circuit, GRA, answer, 0);
    write_locks(range, group, answer);
    Ok(size)
}

// CGBA, CGUA: the indicator, then range and status.
fn answer_group(
    circuit: u16,
    kind: u8,
    block: u8,
    range: u8,
    status: &[u8],
    answer: &mut [u8],
) -> Result<usize, Refusal>
    ensures { leaving (told result) answer.new ≡
        sent (headed circuit kind
        (block ∷ range_and_status range (status_given range status.now))) answer.old }
{
    let size = 8 + (range / 8) as usize;
    if answer.len() < size {
        return Err(Refusal::NoRoom);
    }
    write_head(circuit, kind, answer, 0);
    answer[3] = block;
    write_status(range, status, answer, 4);
    Ok(size)
}

// CQR: range and circuit states.
fn answer_query(circuit: u16, range: u8, group: &[u8], answer: &mut [u8]) -> Result<usize, Refusal>
    ensures { leaving (told result) answer.new ≡
        sent (headed circuit CQR (range_and_states range group.now))
        answer.old }
{
    let size = 9 + range as usize;
    if answer.len() < size {
        return Err(Refusal::NoRoom);
    }
    write_head(circuit, CQR, answer, 0);
    write_states(range, group, answer);
    Ok(size)
}

// Writes what answers an act on circuits `circuit` to `circuit + range`: its octets
// fill the front of `answer`, the rest of it is kept, and their count is given; or
// 13, and all of `answer` is kept.
// `group` has the rows of these circuits as they are before the act, and `status` the status octets
// of the message, none where it has none.
pub fn reply(
    act: Act,
    circuit: u16,
    range: u8,
    block: u8,
    group: &[u8],
    status: &[u8],
    answer: &mut [u8],
) -> Result<usize, Refusal>
    ensures { leaving (told result) answer.new ≡
        sent (answer_to act circuit range block group.now status.now)
        answer.old }
{
    match act {
        Act::Seize => Ok(0),
        Act::Release => answer_complete(circuit, answer),
        Act::Reset => answer_clear(circuit, changes::octet_at(group, 0), answer),
        Act::Block => answer_plain(circuit, BLA, answer),
        Act::Unblock => answer_plain(circuit, UBA, answer),
        Act::ResetGroup => answer_reset(circuit, range, group, answer),
        Act::BlockGroup => answer_group(circuit, CGBA, block, range, status, answer),
        Act::UnblockGroup => answer_group(circuit, CGUA, block, range, status, answer),
        Act::Query => answer_query(circuit, range, group, answer),
    }
}

// Writes what the desk has to send where it sets its own block, BLO, or clears it, UBL: three
// octets at the front of `answer`, the rest of it is kept; or 13, and all of `answer` is kept.
pub fn notice(circuit: u16, set: bool, answer: &mut [u8]) -> Result<usize, Refusal>
    ensures { leaving (told result) answer.new ≡
        sent (notice_of circuit set) answer.old }
{
    if set {
        return answer_plain(circuit, BLO, answer);
    }
    answer_plain(circuit, UBL, answer)
}
