// Who may do what on the circuits that a message names: 19, 22, 20 and 21, in that order.
#![tactic(auto)]

ghost use Rattle.std.specs.Prelude.{◌≡◌, ◌+◌, ◌≤◌, ◌<◌, length};
ghost use Rattle.octets.specs.Told.{told};
ghost use Rattle.rights.specs.Tables.{tables};
ghost use Rattle.rights.specs.Rights.{is_mine, has_right, may_help, first_foreign_lem, first_unowned_lem, first_illegal_lem};
ghost use Rattle.rights.specs.Permits.{is_taken, permitted_of, permitted_in};
ghost use Rattle.rights.specs.Inside.{against_of};

use asks::Ask;
use octets::Refusal;
use rows::{Act, CIRCUITS};

// Whether a table of owners, or of helpers, names the sender for the circuit.
fn mine(table: &[u8], sender: u32, circuit: usize) -> bool
    requires { circuit < length table.now }
    ensures { result ≡ is_mine table.now sender circuit }
{
    if sender == 0 {
        return false;
    }
    table[circuit] as u32 == sender
}

// Whether the sender owns the circuit or helps it.
fn right(owners: &[u8], helpers: &[u8], sender: u32, circuit: usize) -> bool
    requires { (circuit < length owners.now) × (circuit < length helpers.now) }
    ensures { result ≡ has_right owners.now helpers.now sender circuit }
{
    if mine(owners, sender, circuit) {
        return true;
    }
    mine(helpers, sender, circuit)
}

// The first circuit of a group on which the sender has no right ends the search. Document 01 names
// the form: a loop over the group that yields it by break, or none.
fn first_foreign(
    owners: &[u8],
    helpers: &[u8],
    sender: u32,
    first: usize,
    range: usize,
) -> Option<usize>
    requires { (length owners.now ≡ 4096) × (length helpers.now ≡ 4096)
        × (first + range ≤ 4095) }
    ensures { result ≡
        first_foreign_lem owners.now helpers.now sender first (range + 1) }
{
    let last = first + range;
    let mut circuit = first;
    let found = loop {
        if circuit > last {
            break None;
        }
        if !right(owners, helpers, sender, circuit) {
            break Some(circuit);
        }
        circuit += 1;
    };
    found
}

// The first circuit of a group that the sender does not own ends the search, in the same form.
fn first_unowned(owners: &[u8], sender: u32, first: usize, range: usize) -> Option<usize>
    requires { (length owners.now ≡ 4096) × (first + range ≤ 4095) }
    ensures { result ≡ first_unowned_lem owners.now sender first (range + 1) }
{
    let last = first + range;
    let mut circuit = first;
    let found = loop {
        if circuit > last {
            break None;
        }
        if !mine(owners, sender, circuit) {
            break Some(circuit);
        }
        circuit += 1;
    };
    found
}

// Whether a helper may do the act: BLO, UBL, CQM, and CGB and CGU for maintenance.
#[tactic(auto, unfolding(rights::specs::Rights::may_help))]
fn helpable(act: Act, block: u8) -> bool
    ensures { result ≡ may_help act block }
{
    match act {
        Act::Block | Act::Unblock | Act::Query => true,
        Act::BlockGroup | Act::UnblockGroup => block == 0,
        _ => false,
    }
}

// The first circuit of a group whose row is not legal ends the search.
fn first_illegal(states: &[u8], first: usize, range: usize) -> Option<usize>
    requires { (length states.now ≡ 4096) × (first + range ≤ 4095) }
    ensures { result ≡ first_illegal_lem states.now first (range + 1) }
{
    for circuit in first..first + range + 1 {
        if !changes::legal(states[circuit]) {
            return Some(circuit);
        }
    }
    None
}

// Whether the message is an IAM on a circuit that is busy or blocked, by the far side or by us.
fn taken(states: &[u8], act: Act, circuit: usize) -> bool
    requires { circuit < length states.now }
    ensures { result ≡ is_taken states.now act circuit }
{
    matches!(act, Act::Seize) && states[circuit] != 0
}

// 19 or 22 where it stands against what is asked. Where the sender owns every named circuit the
// helpers are not looked at.
#[tactic(auto, unfolding(rights::specs::Inside::against_of))]
fn against(owners: &[u8], helpers: &[u8], sender: u32, ask: Ask) -> Result<(), Refusal>
    requires { (length owners.now ≡ 4096) × (length helpers.now ≡ 4096)
        × (ask.circuit + ask.range ≤ 4095) }
    ensures { told result ≡ against_of owners.now helpers.now sender ask }
{
    let circuit = ask.circuit;
    let range = ask.range;
    if first_unowned(owners, sender, circuit, range).is_none() {
        return Ok(());
    }
    if first_foreign(owners, helpers, sender, circuit, range).is_some() {
        return Err(Refusal::NotTheirs);
    }
    let act = ask.act;
    if helpable(act, ask.block) {
        return Ok(());
    }
    Err(Refusal::OnlyHelped)
}

// Whether what is asked is permitted, of a group inside the tables: 19, 22, 20, then 21.
fn permit_inside(
    states: &[u8],
    owners: &[u8],
    helpers: &[u8],
    sender: u32,
    ask: Ask,
) -> Result<Ask, Refusal>
    requires { (length states.now ≡ 4096) × (length owners.now ≡ 4096)
        × (length helpers.now ≡ 4096) × (ask.circuit + ask.range ≤ 4095) }
    ensures { told result ≡
        permitted_of (tables states.now owners.now helpers.now)
        sender ask }
{
    let circuit = ask.circuit;
    let range = ask.range;
    against(owners, helpers, sender, ask)?;
    if first_illegal(states, circuit, range).is_some() {
        return Err(Refusal::IllegalRow);
    }
    let act = ask.act;
    if taken(states, act, circuit) {
        return Err(Refusal::Taken);
    }
    Ok(ask)
}

// What is asked, where the sender may do it on every circuit that is named; else
// the first of 16 for a table of another length than 4096, 18 for a group that
// passes circuit 4095, 19, 22, 20 and 21.
pub fn permit(
    states: &[u8],
    owners: &[u8],
    helpers: &[u8],
    sender: u32,
    ask: Ask,
) -> Result<Ask, Refusal>
    ensures { told result ≡
        permitted_in (tables states.now owners.now helpers.now)
        sender ask }
{
    if states.len() != CIRCUITS {
        return Err(Refusal::WrongTables);
    }
    if owners.len() != CIRCUITS {
        return Err(Refusal::WrongTables);
    }
    if helpers.len() != CIRCUITS {
        return Err(Refusal::WrongTables);
    }
    let circuit = ask.circuit;
    if circuit > 4095 {
        return Err(Refusal::PastLastCircuit);
    }
    if ask.range > 4095 - circuit {
        return Err(Refusal::PastLastCircuit);
    }
    permit_inside(states, owners, helpers, sender, ask)
}
