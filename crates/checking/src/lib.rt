// A plan of a maintenance night, checked: each of its messages is judged as the hub would judge it,
// and what is ticked must be marked once.
#![tactic(auto)]

ghost use Rattle.std.specs.Prelude.{◌≡◌, not, ◌⊎◌, ◌+◌, ◌-◌, ◌/◌, ◌≤◌, ◌<◌, eqb, length};
ghost use Rattle.layout.specs.Container.{bit};
ghost use Rattle.asks.specs.Asks.{Sound, mark_of};
ghost use Rattle.rights.specs.Tables.{tables};
ghost use Rattle.hub.specs.Acts.{judged_of};
ghost use Rattle.plans.specs.Plans.{planned};
ghost use Rattle.plans.specs.Check.{seeing, told_seen, hearing, agree};
ghost use Rattle.plans.specs.Turns.{check_at};

use asks::Ask;
use rows::{Act, CIRCUITS};

// Whether circuit m+n is marked.
fn marked(message: &[u8], status: usize, n: usize) -> bool
    requires { (status ≡ 0) ⊎ (status + n / 8 < length message.now) }
    ensures { result ≡ mark_of message.now status n }
{
    if status == 0 {
        return true;
    }
    let octet = message[status + n / 8];
    let by = (n % 8) as u8;
    (octet >> by) % 2 == 1
}

// Whether an act is one for a plan of that kind: CGB of that kind, and BLO too for maintenance.
#[tactic(auto, unfolding(plans::specs::Plans::planned))]
fn fit(kind: u32, act: Act, block: u8) -> bool
    ensures { result ≡ planned kind act block }
{
    match act {
        Act::Block => kind == 0,
        Act::BlockGroup => block as u32 == kind,
        _ => false,
    }
}

// Each marked circuit is seen from now on, and was not before.
fn see(message: &[u8], ask: Ask, seen: &mut [u8; 4096]) -> bool
    requires { Sound message.now ask }
    ensures { told_seen result seen.new ≡
        seeing (λ c. mark_of message.now ask.status (c - ask.circuit)) ask.circuit
        (ask.range + 1) seen.old }
{
    let circuit = ask.circuit;
    let range = ask.range;
    let status = ask.status;
    for i in 0..range + 1 {
        if marked(message, status, i) {
            let c = circuit + i;
            if seen[c] != 0 {
                return false;
            }
            seen[c] = 1;
        }
    }
    true
}

// One message of the plan, at the given tables.
fn hear(
    states: &[u8],
    owners: &[u8],
    helpers: &[u8],
    sender: u32,
    kind: u32,
    message: &[u8],
    seen: &mut [u8; 4096],
) -> bool
    ensures { told_seen result seen.new ≡
        hearing (judged_of (tables states.now owners.now helpers.now) sender) kind seen.old message.now }
{
    match judging::judge(states, owners, helpers, sender, message) {
        Err(_) => false,
        Ok(ask) => {
            let act = ask.act;
            if !fit(kind, act, ask.block) {
                return false;
            }
            see(message, ask, seen)
        }
    }
}

// 1 where the tick's octet says ticked.
fn want(tick: u8) -> u8
    ensures { (result ≡ bit (not (eqb tick 0))) × (result ≤ 1) }
{
    if tick == 0 {
        return 0;
    }
    1
}

// Whether the circuits that are seen are those ticked.
fn agrees(ticks: &[u8], seen: &[u8; 4096]) -> bool
    requires { length ticks.now ≡ 4096 }
    ensures { result ≡ agree ticks.now seen.now 0 4096 }
{
    ticks
        .iter()
        .zip(seen)
        .all(|(tick, mark)| *mark == want(*tick))
}

// An octet as a count.
fn wide(octet: u8) -> usize
    ensures { (result ≡ octet) × (result ≤ 255) }
{
    octet as usize
}

// Whether a plan is good: the hub, on the given tables, would accept every message in turn, and the
// ticked circuits are marked once each, no others.
// A table of wrong length, a kind other than 0 or 1, a plan cut off: no. The kind stays a number:
// C and the desk may give any.
pub fn check_plan(
    states: &[u8],
    owners: &[u8],
    helpers: &[u8],
    ticks: &[u8],
    sender: u32,
    kind: u32,
    plan: &[u8],
) -> bool
    ensures { result ≡
        check_at (tables states.now owners.now helpers.now)
        ticks.now sender kind plan.now }
{
    if states.len() != CIRCUITS {
        return false;
    }
    if owners.len() != CIRCUITS {
        return false;
    }
    if helpers.len() != CIRCUITS {
        return false;
    }
    if ticks.len() != CIRCUITS {
        return false;
    }
    if 1 < kind {
        return false;
    }
    let mut seen = [0u8; 4096];
    // Goes on by the length that it read, so it counts no index.
    let mut at = 0;
    while at < plan.len() {
        let n = wide(plan[at]);
        let start = at + 1;
        if plan.len() - start < n {
            return false;
        }
        let end = start + n;
        if !hear(
            states,
            owners,
            helpers,
            sender,
            kind,
            &plan[start..end],
            &mut seen,
        ) {
            return false;
        }
        at = end;
    }
    agrees(ticks, &seen)
}
