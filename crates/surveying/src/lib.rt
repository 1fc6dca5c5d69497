// What the planner looks for before it writes, in one pass over the rows of the four tables.
#![tactic(auto)]

ghost use Rattle.std.specs.Prelude.{◌≡◌, true};
ghost use Rattle.octets.specs.Choice.{when◌then◌else◌};
ghost use Rattle.plans.specs.Plans.{ticked};
ghost use Rattle.plans.specs.Turns.{may_block_lem};
ghost use Rattle.surveys.specs.Surveys.{will_do_lem, survey_of};

use octets::Refusal;

// Whether a circuit before this one is stuck, or this one is.
fn stuck_with(
    stuck: bool,
    owners: &[u8],
    helpers: &[u8],
    ticks: &[u8],
    sender: u32,
    kind: u32,
    c: usize,
) -> bool
    ensures { result ≡
        (when will_do_lem kind (may_block_lem kind owners.now helpers.now sender)
        (ticked ticks.now) c then stuck else true) }
{
    if prospects::will_do(owners, helpers, ticks, sender, kind, c) {
        return stuck;
    }
    true
}

// Whether some row is not legal, else whether some ticked circuit can have no plan of that kind,
// else how many circuits are ticked.
// Past the end of a table a row is legal, nobody is named and nothing is ticked.
pub fn survey(
    states: &[u8],
    owners: &[u8],
    helpers: &[u8],
    ticks: &[u8],
    sender: u32,
    kind: u32,
) -> Result<usize, Refusal>
    ensures { result ≡
        survey_of states.now kind
        (may_block_lem kind owners.now helpers.now sender)
        (ticked ticks.now) }
{
    let mut stuck = false;
    let mut n = 0;
    for c in 0..4096 {
        if !changes::legal(changes::octet_at(states, c)) {
            return Err(Refusal::IllegalRow);
        }
        if changes::octet_at(ticks, c) != 0 {
            stuck = stuck_with(stuck, owners, helpers, ticks, sender, kind, c);
            n += 1;
        }
    }
    if stuck {
        return Err(Refusal::NoPlan);
    }
    Ok(n)
}
