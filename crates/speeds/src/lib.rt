// Velocities for C and Rust: the codes of measured values, and the values that codes stand for.
// With `llachurep` and its like they are one library.
#![tactic(auto)]

ghost use Rattle.std.specs.Prelude.{◌≡◌};
ghost use Rattle.velocity.specs.declared.Mark.TheVariants.{Upward};
ghost use Rattle.velocity.specs.declared.Velocity.TheVariants.{Horizontal, WithVertical};
ghost use Rattle.boundary.specs.Boundary.{given, given_by};
ghost use Rattle.speeds.specs.Velocities.{gives_codes, code_gives, valued, values_gives};

use octets::Refusal;
use velocity::{Codes, Known, Mark, Velocity};

// The largest code of a speed.
const CODE_MOST: u32 = 65535;

// Gives codes, or 13.
fn give_codes(coded: Codes, codes: &mut [u16]) -> u32
    ensures { given result codes.new ≡
        given_by (gives_codes coded codes.old) }
{
    match coded {
        Codes::Horizontal(bearing, speed) => {
            if codes.len() < 2 {
                return telling::refused(Refusal::NoRoom);
            }
            codes[0] = bearing;
            codes[1] = speed;
            2
        }
        Codes::WithVertical(bearing, speed, vertical, _) => {
            if codes.len() < 3 {
                return telling::refused(Refusal::NoRoom);
            }
            codes[0] = bearing;
            codes[1] = speed;
            codes[2] = vertical as u16;
            3
        }
    }
}

// Codes a velocity.
#[tactic(auto, unfolding(crate::specs::Velocities::code_gives))]
fn give_coded(measured: Velocity, codes: &mut [u16]) -> u32
    ensures { given result codes.new ≡
        given_by (code_gives measured codes.old) }
{
    match coding::code(measured) {
        Ok(coded) => give_codes(coded, codes),
        Err(why) => telling::refused(why),
    }
}

// Codes a bearing in degrees and a speed in km/h. Accepted: 2, and codes[0..2) are the bearing's
// and the speed's. Refused with 26, then 13.
#[unsafe(no_mangle)]
pub extern "C" fn llachurep_velocity_code(bearing: f64, speed: f64, codes: &mut [u16]) -> u32
    ensures { given result codes.new ≡
        given_by (code_gives (Horizontal bearing speed) codes.old) }
{
    give_coded(Velocity::Horizontal(bearing, speed), codes)
}

// The same with a vertical speed. Accepted: 3, and codes[2] is the vertical
// speed's. Its mark stays with the caller.
#[unsafe(no_mangle)]
pub extern "C" fn llachurep_velocity_code_vertical(
    bearing: f64,
    speed: f64,
    vertical: f64,
    codes: &mut [u16],
) -> u32
    ensures { given result codes.new ≡
        given_by (code_gives (WithVertical bearing speed vertical Upward) codes.old) }
{
    give_coded(
        Velocity::WithVertical(bearing, speed, vertical, Mark::Upward),
        codes,
    )
}

// What a bearing's and a speed's code stand for. Accepted: 2, and values[0..2) are the bearing and
// the speed. Refused with 26 for a bearing above 359 or a speed above 65535, then 13.
#[tactic(auto, unfolding(velocity::specs::Velocity::known_of))]
#[unsafe(no_mangle)]
pub extern "C" fn llachurep_velocity_read(bearing: u32, speed: u32, values: &mut [f64]) -> u32
    ensures { valued result values.new ≡
        values_gives bearing speed values.old }
{
    if CODE_MOST < bearing {
        return telling::refused(Refusal::NoVelocity);
    }
    if CODE_MOST < speed {
        return telling::refused(Refusal::NoVelocity);
    }
    match courses::read(Codes::Horizontal(bearing as u16, speed as u16)) {
        Ok(Known::Horizontal(course)) => {
            if values.len() < 2 {
                return telling::refused(Refusal::NoRoom);
            }
            values[0] = course.bearing;
            values[1] = course.speed;
            2
        }
        Ok(Known::WithVertical(_, _, _)) => telling::refused(Refusal::NoVelocity),
        Err(why) => telling::refused(why),
    }
}
