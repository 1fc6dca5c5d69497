// How the functions for C tell an answer by one number of 32 bits: 65536 * N + v,
// where N is the refusal's number, 0 where there is none, and v what was accepted or
// the octet that the refusal is about.
#![tactic(auto)]

ghost use Rattle.std.specs.Prelude.{◌≡◌, ◌+◌, ◌*◌, ◌%◌};
ghost use Rattle.octets.specs.Told.{told_by};
ghost use Rattle.telling.specs.Telling.{packed_low};

use octets::Numbered;

// A refusal's number and the octet that it is about, as an answer.
pub fn refusal(number: u8, place: usize) -> u32
    ensures { result ≡ 65536 * number + place % 65536 }
{
    65536 * number as u32 + (place % 65536) as u32
}

// A refusal as an answer.
pub fn refused<R: Numbered>(why: R) -> u32
    ensures { result ≡ 65536 * R.number_in why + R.place_in why % 65536 }
{
    refusal(why.number(), why.place())
}

// What all that fill a lent buffer answer, as one number.
pub fn written<R: Numbered>(answer: Result<usize, R>) -> u32
    ensures { result ≡ packed_low (told_by R.number_in R.place_in answer) }
{
    match answer {
        Ok(n) => (n % 65536) as u32,
        Err(why) => refused(why),
    }
}
