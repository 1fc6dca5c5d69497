// Which circuits the sender may block, and whether a plan can mark a ticked circuit.
#![tactic(auto)]

ghost use Rattle.std.specs.Prelude.{◌≡◌};
ghost use Rattle.rights.specs.Rights.{is_mine};
ghost use Rattle.plans.specs.Plans.{ticked};
ghost use Rattle.plans.specs.Turns.{may_block_lem};
ghost use Rattle.surveys.specs.Surveys.{next_will_do_lem, can_plan, will_do_lem};

// Whether a table of owners, or of helpers, names the sender for the circuit.
fn mine(table: &[u8], sender: u32, circuit: usize) -> bool
    ensures { result ≡ is_mine table.now sender circuit }
{
    if sender == 0 {
        return false;
    }
    if circuit >= table.len() {
        return false;
    }
    table[circuit] as u32 == sender
}

// Whether a plan of that kind may name the circuit: for maintenance one owned
// or helped, for hardware one owned.
#[tactic(auto, unfolding(plans::specs::Turns::may_block_lem))]
fn may_block(owners: &[u8], helpers: &[u8], sender: u32, kind: u32, circuit: usize) -> bool
    ensures { result ≡
        may_block_lem kind owners.now helpers.now sender circuit }
{
    if kind != 0 {
        return mine(owners, sender, circuit);
    }
    if mine(owners, sender, circuit) {
        return true;
    }
    mine(helpers, sender, circuit)
}

// Whether the next circuit will do as the neighbour: there is one, and a
// plan of that kind may name it.
pub fn next_will_do(owners: &[u8], helpers: &[u8], sender: u32, kind: u32, c: usize) -> bool
    ensures { result ≡
        next_will_do_lem (may_block_lem kind owners.now helpers.now sender) c }
{
    if c < 4095 {
        return may_block(owners, helpers, sender, kind, c + 1);
    }
    false
}

// Whether a plan of that kind can mark the circuit.
#[tactic(auto, unfolding(surveys::specs::Surveys::can_plan))]
fn plannable(owners: &[u8], helpers: &[u8], sender: u32, kind: u32, c: usize) -> bool
    ensures { result ≡
        can_plan kind (may_block_lem kind owners.now helpers.now sender) c }
{
    if !may_block(owners, helpers, sender, kind, c) {
        return false;
    }
    if kind == 0 {
        return true;
    }
    if next_will_do(owners, helpers, sender, kind, c) {
        return true;
    }
    if c == 0 {
        return false;
    }
    may_block(owners, helpers, sender, kind, c - 1)
}

// Whether the circuit is not ticked, or a plan of that kind can mark it.
pub fn will_do(
    owners: &[u8],
    helpers: &[u8],
    ticks: &[u8],
    sender: u32,
    kind: u32,
    c: usize,
) -> bool
    ensures { result ≡
        will_do_lem kind (may_block_lem kind owners.now helpers.now sender)
        (ticked ticks.now) c }
{
    if c >= ticks.len() {
        return true;
    }
    if ticks[c] == 0 {
        return true;
    }
    plannable(owners, helpers, sender, kind, c)
}
