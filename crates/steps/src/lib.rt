// Stepping over the optional parameters of a message from any octet of it.
#![tactic(auto)]

ghost use Rattle.std.specs.Prelude.{◌≡◌};
ghost use Rattle.family.specs.Steps.{offer_at_lem, place_after_lem};

use cursor::Cursor;
use runs::{Field, Step};

// What a step gives at octet `at` of a message.
fn offer_at(message: &[u8], at: usize) -> Option<Field>
    ensures { result ≡ offer_at_lem message.now at }
{
    match runs::step_at(message, at) {
        Step::Param(f) => Some(f),
        Step::Close | Step::End | Step::Pass => None,
    }
}

// Past the parameter at octet `at`; the same octet where there is none.
fn place_after(message: &[u8], at: usize) -> usize
    ensures { result ≡ place_after_lem message.now at }
{
    match runs::step_at(message, at) {
        Step::Param(f) => f.at + f.len,
        Step::Close | Step::End | Step::Pass => at,
    }
}

// The cursor at an octet of a message.
pub fn resume<'a>(message: &'a [u8], at: usize) -> Cursor<'a>
    ensures { (result.message ≡ message.entry) × (result.at ≡ at) }
{
    Cursor { message, at }
}

// The parameter at the cursor's place, or that it is done.
pub fn step<'a>(c: Cursor<'a>) -> Option<Field>
    ensures { result ≡ offer_at_lem c.entry.message.now c.entry.at }
{
    offer_at(c.message, c.at)
}

// The cursor past the parameter at its place; the same cursor where it is done.
pub fn past<'a>(c: Cursor<'a>) -> Cursor<'a>
    ensures { (result.message ≡ c.entry.message) × (result.at ≡ place_after_lem c.entry.message.now c.entry.at) }
{
    resume(c.message, place_after(c.message, c.at))
}

// What a step gives, for whoever holds no cursor.
pub fn step_of(message: &[u8], place: usize) -> Option<Field>
    ensures { result ≡ offer_at_lem message.now place }
{
    step(resume(message, place))
}
