// The whole numbers that stand for a measured velocity.
#![tactic(auto)]

ghost use Rattle.std.specs.Prelude.{◌≡◌};
ghost use Rattle.octets.specs.Told.{told};
ghost use Rattle.velocity.specs.Velocity.{measured, bearing_of, speed_of, flat_of, codes_of};
ghost use Rattle.velocity.specs.Told.{flat_told};

use octets::Refusal;
use velocity::{Codes, Velocity};

// The code of a speed: the nearest whole number, a half going up, and `top` for all that is more.
fn speed_code(h: f64, top: u16) -> Result<u16, Refusal>
    ensures { told result ≡ speed_of top (measured h) }
{
    if h >= 0.0 {
        if h < 65536.0 {
            let twice = std::num::truncating_f64_to_u64(h + h);
            let n = (twice + 1) / 2;
            if n <= top as u64 {
                return Ok(n as u16);
            }
            return Ok(top);
        }
        if h < 1.0 / 0.0 {
            return Ok(top);
        }
    }
    Err(Refusal::NoVelocity)
}

// The code of a bearing: its whole degrees.
fn bearing_code(b: f64) -> Result<u16, Refusal>
    ensures { told result ≡ bearing_of (measured b) }
{
    if b >= 0.0 {
        if b < 360.0 {
            let n = std::num::truncating_f64_to_u64(b);
            return Ok(n as u16);
        }
    }
    Err(Refusal::NoVelocity)
}

// The codes of a bearing and a speed.
#[tactic(auto, unfolding(velocity::specs::Velocity::flat_of))]
fn flat_code(bearing: f64, speed: f64) -> Result<(u16, u16), Refusal>
    ensures { flat_told result ≡ flat_of bearing speed }
{
    let n = bearing_code(bearing)?;
    let k = speed_code(speed, 65535)?;
    Ok((n, k))
}

// The codes of a velocity. Refused with 26 where a value is not a number, infinite or below zero,
// or a bearing is 360 or more.
#[tactic(auto, unfolding(velocity::specs::Velocity::codes_of))]
pub fn code(v: Velocity) -> Result<Codes, Refusal>
    ensures { told result ≡ codes_of v }
{
    match v {
        Velocity::Horizontal(b, s) => {
            let (n, k) = flat_code(b, s)?;
            Ok(Codes::Horizontal(n, k))
        }
        Velocity::WithVertical(b, s, u, mark) => {
            let (n, k) = flat_code(b, s)?;
            let j = speed_code(u, 255)?;
            Ok(Codes::WithVertical(n, k, j as u8, mark))
        }
    }
}
