// A field of a line, where its octets stand in the scratch.
#![tactic(auto)]

ghost use Rattle.std.specs.Prelude.{◌≡◌, ◌≤◌};
ghost use Rattle.fields.specs.Letters.{kind_of};
ghost use Rattle.fields.specs.Placed.{field, no_field, placed};

use fields::Field;

// A field that a form does not have.
pub fn nowhere() -> Field
    ensures { result ≡ no_field }
{
    Field {
        value: 0,
        count: 0,
        from: 0,
    }
}

// The field of so many octets from a place on.
fn stored(count: u32, from: usize) -> Field
    ensures { result ≡ field 0 from count }
{
    Field {
        value: 0,
        count,
        from,
    }
}

// The field of a number, or of so many octets from `next` on.
pub fn field_of(letter: u8, value: u32, next: usize) -> Field
    ensures { (result ≡ placed (kind_of letter) value next) × (result.count ≤ 4294967295) }
{
    if letter == b's' {
        return stored(value, next);
    }
    if letter == b'q' {
        return stored(value, next);
    }
    if letter == b'w' {
        return stored(value, next);
    }
    Field {
        value,
        count: 0,
        from: next,
    }
}
