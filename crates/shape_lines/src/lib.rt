// What the desk says of a type's shape.
#![tactic(auto)]

ghost use Rattle.std.specs.Prelude.{◌≡◌};
ghost use Rattle.isup.specs.Table.{shape_of};
ghost use Rattle.printing.specs.Sheet.{sheet, pour};
ghost use Rattle.read_lines.specs.Read.{shape_line};

use layout::Shape;
use octets::{Numbered, Refusal};

// Puts what a row of a family's table says at the front of `out`, and answers the next place.
pub fn say_row(row: Option<Shape>, out: &mut [u8]) -> usize
    ensures { sheet out.new result ≡
        pour (sheet out.old 0) (shape_line row) }
{
    match row {
        None => sayings::say_refusal(Refusal::UnknownType(0).number(), out),
        Some(shape) => {
            let fixed = sayings::put_count(b"fixed ", shape.fixed as usize, out, 0);
            let variable = sayings::put_count(b" variable ", shape.vars as usize, out, fixed);
            if shape.opt {
                return printing::put_text(b" optional yes", out, variable);
            }
            printing::put_text(b" optional no", out, variable)
        }
    }
}

// Puts what a type's shape is at the front of `out`, and answers the next place.
pub fn say_shape(kind: u8, out: &mut [u8]) -> usize
    ensures { sheet out.new result ≡
        pour (sheet out.old 0) (shape_line (shape_of kind)) }
{
    say_row(isup_codec::shape_of(kind), out)
}
