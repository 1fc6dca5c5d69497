// The velocity that whole numbers stand for.
#![tactic(auto)]

ghost use Rattle.std.specs.Prelude.{◌≡◌};
ghost use Rattle.velocity.specs.Velocity.{course_of_lem, known_of};
ghost use Rattle.velocity.specs.Told.{known_told};

use octets::Refusal;
use velocity::{Codes, Course, Known};

// The last bearing's code.
const LAST_BEARING: u16 = 359;

// Bearing and speed from their codes.
fn course_of(bearing: u16, speed: u16) -> Course
    ensures { result ≡ course_of_lem bearing speed }
{
    Course {
        bearing: bearing as f64,
        speed: speed as f64,
    }
}

// What codes stand for. Refused with 26 for a bearing above 359.
pub fn read(codes: Codes) -> Result<Known, Refusal>
    ensures { known_told result ≡ known_of codes }
{
    match codes {
        Codes::Horizontal(b, s) => {
            if LAST_BEARING < b {
                return Err(Refusal::NoVelocity);
            }
            Ok(Known::Horizontal(course_of(b, s)))
        }
        Codes::WithVertical(b, s, u, mark) => {
            if LAST_BEARING < b {
                return Err(Refusal::NoVelocity);
            }
            Ok(Known::WithVertical(course_of(b, s), u as f64, mark))
        }
    }
}
