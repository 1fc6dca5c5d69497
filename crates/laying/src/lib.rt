// The planner of a maintenance night: messages of one sender that block the ticked circuits.
#![tactic(auto)]

ghost use Rattle.std.specs.Prelude.{◌≡◌, true, ◌∷◌, [], ◌+◌, ◌-◌, ◌/◌, ◌%◌, ◌≤◌, ◌<◌, length};
ghost use Rattle.octets.specs.Told.{told};
ghost use Rattle.std.proofs.lemmas.List.Edits.{sets};
ghost use Rattle.octets.specs.Filled.{leaving};
ghost use Rattle.asks.specs.Asks.{width};
ghost use Rattle.rights.specs.Tables.{tables};
ghost use Rattle.plans.specs.Plans.{ticked};
ghost use Rattle.plans.specs.Turns.{may_block_lem};
ghost use Rattle.surveys.specs.Surveys.{can_plan};
ghost use Rattle.planning.specs.Planner.{in_row, ones, low_ones_lem, cgb, step_for};
ghost use Rattle.planning.specs.Outcome.{frame, PlanReady, plan_for, planned_of};

use isup::{BLO, CGB};
use octets::Refusal;
use rows::CIRCUITS;

// How many are ticked in a row, 32 at the most.
fn in_row(ticks: &[u8], c: usize) -> usize
    requires { (length ticks.now ≡ 4096) × (c ≤ 4096) }
    ensures { result ≡ in_row (ticked ticks.now) c 32 }
{
    ticks[c..]
        .iter()
        .take(32)
        .take_while(|&&tick| tick != 0)
        .count()
}

// An octet with its first n bits set.
fn low_ones(n: usize) -> u8
    ensures { result ≡ low_ones_lem n }
{
    match n {
        0 => 0,
        1 => 1,
        2 => 3,
        3 => 7,
        4 => 15,
        5 => 31,
        6 => 63,
        7 => 127,
        _ => 255,
    }
}

// Eight fewer, or none.
fn less_eight(n: usize) -> usize
    ensures { result ≡ n - 8 }
{
    if n < 8 {
        return 0;
    }
    n - 8
}

// A status of k octets with its first n bits set.
fn put_ones(out: &mut [u8], at: usize, k: usize, n: usize)
    requires { at + k ≤ length out.old }
    ensures { out.new ≡ sets out.old at (ones k n) }
{
    let mut left = n;
    for octet in &mut out[at..at + k] {
        *octet = low_ones(left);
        left = less_eight(left);
    }
}

// A length octet, the circuit number and the type.
fn put_head(out: &mut [u8], at: usize, size: u8, circuit: usize, kind: u8)
    requires { (at + 4 ≤ length out.old) × (circuit ≤ 4095) }
    ensures { out.new ≡
        sets out.old at (size ∷ circuit % 256 ∷ circuit / 256 ∷ kind ∷ []) }
{
    out[at] = size;
    out[at + 1] = (circuit % 256) as u8;
    out[at + 2] = (circuit / 256) as u8;
    out[at + 3] = kind;
}

// What comes after the type of a CGB: indicator, pointer, length and range.
fn put_range(out: &mut [u8], at: usize, kind: u32, w: usize, range: usize)
    requires { (at + 4 ≤ length out.old) × (kind ≤ 1) × (w ≤ 32) × (range ≤ 255) }
    ensures { out.new ≡
        sets out.old at (kind ∷ 1 ∷ (1 + w) ∷ range ∷ []) }
{
    out[at] = kind as u8;
    out[at + 1] = 1;
    out[at + 2] = (1 + w) as u8;
    out[at + 3] = range as u8;
}

// A CGB for a row of n ticked circuits.
fn put_row(out: &mut [u8], at: usize, circuit: usize, kind: u32, n: usize) -> usize
    requires { (2 ≤ n) × (n ≤ 32) × (circuit ≤ 4095) × (kind ≤ 1)
        × (at + 8 + width (n - 1) ≤ length out.old) }
    ensures { (out.new ≡ sets out.old at (frame (cgb circuit kind (n - 1) (ones (width (n - 1)) n)))) × (result ≡ at + 8 + width (n - 1)) }
{
    let range = n - 1;
    let w = range / 8 + 1;
    let size = (7 + w) as u8;
    put_head(out, at, size, circuit, CGB);
    put_range(out, at + 4, kind, w, range);
    put_ones(out, at + 8, w, n);
    at + 8 + w
}

// A CGB for hardware that names two circuits, with the status given.
fn put_pair(out: &mut [u8], at: usize, circuit: usize, status: u8) -> usize
    requires { (circuit ≤ 4095) × (at + 9 ≤ length out.old) }
    ensures { (out.new ≡ sets out.old at (frame (cgb circuit 1 1 (status ∷ [])))) × (result ≡ at + 9) }
{
    put_head(out, at, 8, circuit, CGB);
    put_range(out, at + 4, 1, 1, 1);
    out[at + 8] = status;
    at + 9
}

// The message for a row of n ticked circuits.
fn put_step(
    owners: &[u8],
    helpers: &[u8],
    sender: u32,
    kind: u32,
    circuit: usize,
    n: usize,
    out: &mut [u8],
    at: usize,
) -> usize
    requires { (length owners.now ≡ 4096) × (length helpers.now ≡ 4096) × (kind ≤ 1) × (1 ≤ n)
        × (n ≤ 32) × (circuit ≤ 4095)
        × (can_plan kind (may_block_lem kind owners.now helpers.now sender) circuit ≡ true)
        × (at + 1 + length (step_for kind (may_block_lem kind owners.now helpers.now sender) circuit n).message ≤ length out.old) }
    ensures { (out.new ≡ sets out.old at (frame (step_for kind (may_block_lem kind owners.now helpers.now sender) circuit n).message)) × (result ≡ at + 1 + length (step_for kind (may_block_lem kind owners.now helpers.now sender) circuit n).message) }
{
    if n != 1 {
        return put_row(out, at, circuit, kind, n);
    }
    if kind == 0 {
        put_head(out, at, 3, circuit, BLO);
        return at + 4;
    }
    if prospects::next_will_do(owners, helpers, sender, kind, circuit) {
        return put_pair(out, at, circuit, 1);
    }
    put_pair(out, at, circuit - 1, 2)
}

// The whole plan, from circuit 0 up.
fn lay(owners: &[u8], helpers: &[u8], ticks: &[u8], sender: u32, kind: u32, out: &mut [u8]) -> usize
    requires { PlanReady owners.now helpers.now ticks.now sender kind (length out.old) }
    ensures { (out.new ≡ sets out.old 0 (plan_for owners.now helpers.now ticks.now sender kind)) × (result ≡ length (plan_for owners.now helpers.now ticks.now sender kind)) }
{
    let mut c = 0;
    let mut at = 0;
    // Goes on by the length of the row that it put, or by one past a circuit that is not ticked.
    while c < 4096 {
        let n = in_row(ticks, c);
        if n == 0 {
            c += 1;
            continue;
        }
        at = put_step(owners, helpers, sender, kind, c, n, out, at);
        c += n;
    }
    at
}

// A plan that the check accepts, at the front of `out`: how many octets it has. A
// row of ticked circuits, 32 at the most, is one CGB; a single one is BLO, or for
// hardware a CGB with a neighbour.
// Refused in order: 16 for a table that is not 4096 octets, 14 for a kind other than 0 or 1, 20 for
// any row that is not legal, 25 if there is no plan, 13 for under 9 octets of `out` for each ticked
// circuit; a refusal changes no octet. The kind stays a number: C and the desk may give any.
pub fn plan(
    states: &[u8],
    owners: &[u8],
    helpers: &[u8],
    ticks: &[u8],
    sender: u32,
    kind: u32,
    out: &mut [u8],
) -> Result<usize, Refusal>
    ensures { leaving (told result) out.new ≡
        planned_of (tables states.now owners.now helpers.now)
        ticks.now sender kind out.old }
{
    if states.len() != CIRCUITS {
        return Err(Refusal::WrongTables);
    }
    if owners.len() != CIRCUITS {
        return Err(Refusal::WrongTables);
    }
    if helpers.len() != CIRCUITS {
        return Err(Refusal::WrongTables);
    }
    if ticks.len() != CIRCUITS {
        return Err(Refusal::WrongTables);
    }
    if 1 < kind {
        return Err(Refusal::BadContents);
    }
    let count = surveying::survey(states, owners, helpers, ticks, sender, kind)?;
    if out.len() < 9 * count {
        return Err(Refusal::NoRoom);
    }
    Ok(lay(owners, helpers, ticks, sender, kind, out))
}
