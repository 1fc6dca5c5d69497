// Called party numbers: their contents are written from values and signals.
#![tactic(auto)]

ghost use Rattle.std.specs.Prelude.{◌≡◌, false, ◌∷◌, ◌+◌, ◌*◌, ◌/◌, ◌≤◌, length, drop};
ghost use Rattle.octets.specs.Told.{told};
ghost use Rattle.std.proofs.lemmas.List.Edits.{sets};
ghost use denote.Ref.{at_last};
ghost use Rattle.octets.specs.Filled.{leaving};
ghost use Rattle.number.specs.Halves.{two_to_an_octet};
ghost use Rattle.dialling.specs.Write.{any_above15, write_number_of};

use number::MOST_SIGNALS;
use octets::Refusal;

// The largest address signal.
const LARGEST_SIGNAL: u8 = 15;

// The largest nature of address.
const LARGEST_NATURE: u32 = 127;

// The largest numbering plan.
const LARGEST_PLAN: u32 = 7;

// The largest internal network bit.
const LARGEST_INTERNAL: u32 = 1;

// Whether a signal is above 15.
fn any_above_15(signals: &[u8]) -> bool
    ensures { result ≡ any_above15 signals.now }
{
    signals.iter().any(|signal| *signal > LARGEST_SIGNAL)
}

// The steps of writing hand on references to the two lent slices, one word each: what they hand on
// stays in registers, and the two steps of the pair are one loop in the end.

// Takes the signal for the low half of octet `at` of the signals, and hands it on to the high half,
// until no signal is left; leaves octet `at` and those after it written.
#[cycle(write_high_write_low)]
fn write_low(signals: &&[u8], out: &mut &mut [u8], at: usize, left: usize)
    requires { (2 * at + left ≡ length signals.now.now) × (length signals.now.now ≤ 30)
        × (any_above15 signals.now.now ≡ false)
        × (2 + (length signals.now.now + 1) / 2 ≤ length out.old.now) }
    ensures { out.new ≡
        at_last out.old (sets out.old.now (at + 2) (two_to_an_octet (drop (2 * at) signals.now.now))) }
{
    if left == 0 {
        return;
    }
    write_high(signals, out, at, left - 1, signals[2 * at]);
}

// Writes octet `at` of the signals, `low` in its low half and the next signal in its high half, or
// filler 0 where no signal is left, and hands on to the low half of the next octet; leaves octet
// `at` and those after it written.
#[cycle(write_high_write_low)]
fn write_high(signals: &&[u8], out: &mut &mut [u8], at: usize, left: usize, low: u8)
    requires { (2 * at + 1 + left ≡ length signals.now.now)
        × (length signals.now.now ≤ 30) × (any_above15 signals.now.now ≡ false)
        × (2 + (length signals.now.now + 1) / 2 ≤ length out.old.now) × (low ≤ 15) }
    ensures { out.new ≡
        at_last out.old (sets out.old.now (at + 2) (two_to_an_octet (low ∷ drop (2 * at + 1) signals.now.now))) }
{
    if left == 0 {
        out[at + 2] = low;
        return;
    }
    out[at + 2] = low + 16 * signals[2 * at + 1];
    write_low(signals, out, at + 1, left - 1);
}

// Writes all signals, the low half of the first octet first: lends its buffer to the steps, and
// leaves their octets after the first two of `out`.
fn write_signals(signals: &&[u8], out: &mut [u8], count: usize)
    requires { (count ≡ length signals.now.now) × (length signals.now.now ≤ 30)
        × (any_above15 signals.now.now ≡ false)
        × (2 + (length signals.now.now + 1) / 2 ≤ length out.old) }
    ensures { out.new ≡
        sets out.old 2 (two_to_an_octet signals.now.now) }
{
    // Lent out of a tuple: that loan is one that Rattle follows home.
    let mut place = (&mut *out,);
    let lent = &mut place;
    write_low(signals, &mut lent.0, 0, count);
}

// Writes a number: its octets fill the front of `out`, their count is the
// answer, and the rest of `out` is kept.
// Refused with 14 for a value or a signal above its range or for more than 30 signals, else with 13
// for too short a buffer; a refusal keeps all of `out`.
pub fn write_number(
    nature: u32,
    plan: u32,
    internal: u32,
    signals: &[u8],
    out: &mut [u8],
) -> Result<usize, Refusal>
    ensures { leaving (told result) out.new ≡
        write_number_of nature plan internal signals.now out.old }
{
    if nature > LARGEST_NATURE {
        return Err(Refusal::BadContents);
    } else if plan > LARGEST_PLAN {
        return Err(Refusal::BadContents);
    } else if internal > LARGEST_INTERNAL {
        return Err(Refusal::BadContents);
    } else if signals.len() > MOST_SIGNALS {
        return Err(Refusal::BadContents);
    } else if any_above_15(signals) {
        return Err(Refusal::BadContents);
    }
    let count = signals.len();
    let length = 2 + (count + 1) / 2;
    if out.len() < length {
        return Err(Refusal::NoRoom);
    }
    out[0] = 128 * ((count % 2) as u8) + nature as u8;
    out[1] = 128 * (internal as u8) + 16 * (plan as u8);
    write_signals(&signals, out, count);
    Ok(length)
}
