// The type octet of a message, and its packed shape row unpacked.
#![tactic(auto)]

ghost use Rattle.std.specs.Prelude.{◌≡◌};
ghost use Rattle.layout.specs.Container.{kind_at};
ghost use Rattle.layout.specs.Packed.{unpacked_of};

use layout::Shape;

// The row that a packed one says: 16 for each fixed octet, 4 for each variable parameter, 2 for an
// optional part, and 1; 0 for a type that is not in the table.
pub fn row_of(packed: u8) -> Option<Shape>
    ensures { result ≡ unpacked_of packed }
{
    let shape = Shape {
        fixed: packed / 16,
        vars: packed / 4 % 4,
        opt: packed / 2 % 2 == 1,
    };
    if packed % 2 == 0 { None } else { Some(shape) }
}

// The type octet, which stands at `width`; 0 where the message ends before it.
pub fn kind_at(octets: &[u8], width: u8) -> u8
    ensures { result ≡ kind_at octets.now width }
{
    let at = width as usize;
    if at < octets.len() { octets[at] } else { 0 }
}
