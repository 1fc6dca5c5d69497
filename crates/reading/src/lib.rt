// The parts of a message, read by its shape row: each lies where its pointer
// says, and no octet belongs to two.
// A refusal is a number of document 01 with the octet that it is about.
#![tactic(auto)]

ghost use Rattle.std.specs.Prelude.{◌≡◌, ◌+◌, ◌≤◌, ◌<◌, length};
ghost use Rattle.octets.specs.Told.{told};
ghost use Rattle.layout.specs.Container.{run_from, pointed, variable_from_lem, variable_at_lem, optional_at_lem, variable_slot_lem, optional_slot_lem, end_of, container_of, parts_of};

use layout::Shape;
use octets::Refusal;
use parts::{Parts, Span};
use runs::Stop;

// The optional part that starts at `from`, through the 0 that closes it.
fn run_from(octets: &[u8], from: usize) -> Result<Span, Refusal>
    ensures { told result ≡ run_from octets.now from }
{
    match runs::run_stop(octets, from) {
        Stop::Closed(i) => Ok(Span { from, to: i + 1 }),
        Stop::Ended(i) => Err(Refusal::OpenRun(i)),
        Stop::Passed(i) => Err(Refusal::OpenRun(i)),
    }
}

// Where the pointer at p points, where the pointers end at `end`: the rule of every pointer.
fn target_of(octets: &[u8], p: usize, end: usize) -> Result<usize, Refusal>
    requires { (p < length octets.now) × (end ≤ length octets.now) }
    ensures { told result ≡ pointed octets.now p end }
{
    let t = p + octets[p] as usize;
    if t < end {
        return Err(Refusal::BadPointer(p));
    }
    if octets.len() <= t {
        return Err(Refusal::BadPointer(p));
    }
    Ok(t)
}

// The variable parameter whose length octet stands at t.
fn variable_from(octets: &[u8], t: usize) -> Result<Span, Refusal>
    requires { t < length octets.now }
    ensures { told result ≡ variable_from_lem octets.now t }
{
    let to = t + 1 + octets[t] as usize;
    if octets.len() < to {
        return Err(Refusal::PastEnd(t));
    }
    Ok(Span { from: t, to })
}

// The variable parameter whose pointer stands at p.
#[tactic(auto, unfolding(layout::specs::Container::variable_at_lem))]
fn variable_at(octets: &[u8], p: usize, end: usize) -> Result<Span, Refusal>
    requires { (p < length octets.now) × (end ≤ length octets.now) }
    ensures { told result ≡ variable_at_lem octets.now p end }
{
    let t = target_of(octets, p, end)?;
    variable_from(octets, t)
}

// The optional part whose pointer stands at p: nothing where the pointer is 0.
#[tactic(auto, unfolding(layout::specs::Container::optional_at_lem))]
fn optional_at(octets: &[u8], p: usize, end: usize) -> Result<Span, Refusal>
    requires { (p < length octets.now) × (end ≤ length octets.now) }
    ensures { told result ≡ optional_at_lem octets.now p end }
{
    if octets[p] == 0 {
        return Ok(Span { from: 0, to: 0 });
    }
    let t = target_of(octets, p, end)?;
    run_from(octets, t)
}

// The k-th of `vars` variable parameters, the first pointer at `at`: nothing
// where there are not that many.
fn variable_slot(octets: &[u8], at: usize, k: usize, vars: u8, end: usize) -> Result<Span, Refusal>
    requires { (at + vars ≤ end) × (end ≤ length octets.now) }
    ensures { told result ≡ variable_slot_lem octets.now at k vars end }
{
    if k < vars as usize {
        variable_at(octets, at + k, end)
    } else {
        Ok(Span { from: 0, to: 0 })
    }
}

// The optional part, if the shape has one: its pointer is the last of the pointers.
fn optional_slot(octets: &[u8], opt: bool, end: usize) -> Result<Span, Refusal>
    requires { (0 < end) × (end ≤ length octets.now) }
    ensures { told result ≡ optional_slot_lem octets.now opt end }
{
    if opt {
        optional_at(octets, end - 1, end)
    } else {
        Ok(Span { from: 0, to: 0 })
    }
}

// Where the pointers end: past the header, the type, the fixed part and the pointers.
fn pointers_end(width: u8, shape: Shape) -> usize
    ensures { result ≡ end_of width shape }
{
    let before = width as usize + 1 + shape.fixed as usize + shape.vars as usize;
    if shape.opt { before + 1 } else { before }
}

// The parts of a message of that shape whose type octet stands at `width`.
// Written as matches, the refusal first: by `?` the compiler takes the call of `judge` for a rare one
// and keeps it out of line, which makes reading a short message a quarter dearer.
#[tactic(auto, unfolding(layout::specs::Container::container_of))]
fn container(octets: &[u8], width: u8, shape: Shape) -> Result<Parts, Refusal>
    ensures { told result ≡ container_of octets.now width shape }
{
    let end = pointers_end(width, shape);
    if octets.len() < end {
        return Err(Refusal::CutOff(octets.len()));
    }
    let from = width as usize + 1;
    let at = from + shape.fixed as usize;
    match variable_slot(octets, at, 0, shape.vars, end) {
        Err(why) => Err(why),
        Ok(first) => match variable_slot(octets, at, 1, shape.vars, end) {
            Err(why) => Err(why),
            Ok(second) => match variable_slot(octets, at, 2, shape.vars, end) {
                Err(why) => Err(why),
                Ok(third) => match optional_slot(octets, shape.opt, end) {
                    Err(why) => Err(why),
                    Ok(optional) => {
                        parts::judge(Span { from, to: at }, first, second, third, optional)
                    }
                },
            },
        },
    }
}

// The parts of a message of a family whose header has that width, whose longest message has `most`
// octets, and which says `row` of its type.
#[tactic(auto, unfolding(layout::specs::Container::parts_of))]
pub fn read_parts(
    octets: &[u8],
    width: u8,
    most: usize,
    row: Option<Shape>,
) -> Result<Parts, Refusal>
    ensures { told result ≡ parts_of octets.now width most row }
{
    if octets.len() <= width as usize {
        return Err(Refusal::TooShort);
    }
    if most < octets.len() {
        return Err(Refusal::TooLong);
    }
    let unknown = Refusal::UnknownType(width as usize);
    let shape = row.ok_or(unknown)?;
    if 3 < shape.vars {
        return Err(unknown);
    }
    container(octets, width, shape)
}
