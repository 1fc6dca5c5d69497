// The boundary's functions for a maintenance night: the plan, and its check. With `llachurep` and
// its like they are one library for C and Rust.
// They are a crate of their own so that its object has one reader, which the
// compiler puts where it is called.
#![tactic(auto)]

ghost use Rattle.std.specs.Prelude.{◌≡◌};
ghost use Rattle.layout.specs.Container.{bit};
ghost use Rattle.rights.specs.Tables.{tables};
ghost use Rattle.plans.specs.Turns.{check_at};
ghost use Rattle.planning.specs.Outcome.{planned_of};
ghost use Rattle.boundary.specs.Boundary.{given, given_by};

// A plan that blocks the ticked circuits by messages of the sender: for maintenance where `kind` is
// 0, for hardware where it is 1. Accepted: how many octets the plan has, at the front of `plan`.
// Refused with 16, 14, 20, 25, 13.
#[unsafe(no_mangle)]
pub extern "C" fn llachurep_plan(
    states: &[u8],
    owners: &[u8],
    helpers: &[u8],
    ticks: &[u8],
    sender: u32,
    kind: u32,
    plan: &mut [u8],
) -> u32
    ensures { given result plan.new ≡
        given_by (planned_of (tables states.now owners.now helpers.now) ticks.now sender kind plan.old) }
{
    telling::written(laying::plan(states, owners, helpers, ticks, sender, kind, plan))
}

// Whether a plan is good, whoever made it: 1 for yes, 0 for no. It refuses nothing: a table of
// wrong length, a kind other than 0 or 1 and a plan cut off are no.
#[unsafe(no_mangle)]
pub extern "C" fn llachurep_check_plan(
    states: &[u8],
    owners: &[u8],
    helpers: &[u8],
    ticks: &[u8],
    sender: u32,
    kind: u32,
    plan: &[u8],
) -> u32
    ensures { result ≡
        bit (check_at (tables states.now owners.now helpers.now) ticks.now sender kind plan.now) }
{
    if checking::check_plan(states, owners, helpers, ticks, sender, kind, plan) {
        return 1;
    }
    0
}
