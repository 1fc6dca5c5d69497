// Called party numbers: the contents are read into values and signals.
#![tactic(auto)]

ghost use Rattle.std.specs.Prelude.{◌≡◌, ◌+◌, ◌*◌, ◌≤◌, length, drop};
ghost use Rattle.octets.specs.Told.{told};
ghost use Rattle.std.proofs.lemmas.List.Edits.{sets};
ghost use denote.Ref.{at_last};
ghost use Rattle.octets.specs.Filled.{leaving};
ghost use Rattle.number.specs.Contents.{bit8, filler_in, count_in, signals_in};
ghost use Rattle.number.specs.Read.{read_number_of};

use number::{MOST_SIGNALS, Number};
use octets::Refusal;

// Bit 8 of an octet.
fn bit_8(octet: u8) -> u8
    ensures { result ≡ bit8 octet }
{
    octet / 128
}

// The filler that an odd count leaves, the high half of the last octet; 0 for an even count.
fn filler(contents: &[u8]) -> u8
    requires { 2 ≤ length contents.now }
    ensures { result ≡ filler_in contents.now }
{
    if bit_8(contents[0]) == 0 {
        return 0;
    }
    let last = contents.len() - 1;
    contents[last] / 16
}

// The steps of reading hand on references to the two lent slices, one word each: what they hand on
// stays in registers, and the two steps of the pair are one loop in the end.

// Reads the low half of octet `at` of the signals, and hands on to the high half, until no signal
// is left; leaves signal 2 at and those after it at their places.
#[cycle(read_high_read_low)]
fn read_low(contents: &&[u8], signals: &mut &mut [u8], at: usize, left: usize)
    requires { (2 * at + left ≡ count_in contents.now.now)
        × (count_in contents.now.now ≤ 30)
        × (count_in contents.now.now ≤ length signals.old.now) }
    ensures { signals.new ≡
        at_last signals.old (sets signals.old.now (2 * at) (drop (2 * at) (signals_in contents.now.now))) }
{
    if left == 0 {
        return;
    }
    signals[2 * at] = contents[at + 2] % 16;
    read_high(contents, signals, at, left - 1);
}

// Reads the high half of octet `at` of the signals, and hands on to the low half of the next octet,
// until no signal is left; leaves signal 2 at + 1 and those after it at their places.
#[cycle(read_high_read_low)]
fn read_high(contents: &&[u8], signals: &mut &mut [u8], at: usize, left: usize)
    requires { (2 * at + 1 + left ≡ count_in contents.now.now)
        × (count_in contents.now.now ≤ 30)
        × (count_in contents.now.now ≤ length signals.old.now) }
    ensures { signals.new ≡
        at_last signals.old (sets signals.old.now (2 * at + 1) (drop (2 * at + 1) (signals_in contents.now.now))) }
{
    if left == 0 {
        return;
    }
    signals[2 * at + 1] = contents[at + 2] / 16;
    read_low(contents, signals, at + 1, left - 1);
}

// Reads all signals of a number, the low half of the first octet first: lends its buffer to the
// steps, and leaves the signals at the front.
fn read_signals(contents: &&[u8], signals: &mut [u8], count: usize)
    requires { (count ≡ count_in contents.now.now) × (count_in contents.now.now ≤ 30)
        × (count_in contents.now.now ≤ length signals.old) }
    ensures { signals.new ≡
        sets signals.old 0 (signals_in contents.now.now) }
{
    // Lent out of a tuple: that loan is one that Rattle follows home.
    let mut place = (&mut *signals,);
    let lent = &mut place;
    read_low(contents, &mut lent.0, 0, count);
}

// Reads a number: its values are the answer and its signals fill the front of `signals`, one to an
// octet, and the rest of it is kept.
// Refused with 14 for contents that break their rule, else with 13 for too short a buffer; a
// refusal keeps all of `signals`.
pub fn read_number(contents: &[u8], signals: &mut [u8]) -> Result<Number, Refusal>
    ensures { leaving (told result) signals.new ≡
        read_number_of contents.now signals.old }
{
    if contents.len() < 2 {
        return Err(Refusal::BadContents);
    }
    let odd = bit_8(contents[0]) as usize;
    let halves = 2 * (contents.len() - 2);
    if halves < odd {
        return Err(Refusal::BadContents);
    } else if filler(contents) > 0 {
        return Err(Refusal::BadContents);
    }
    let count = halves - odd;
    if count > MOST_SIGNALS {
        return Err(Refusal::BadContents);
    } else if signals.len() < count {
        return Err(Refusal::NoRoom);
    }
    read_signals(&contents, signals, count);
    Ok(Number {
        nature: contents[0] % 128,
        plan: contents[1] / 16 % 8,
        internal: bit_8(contents[1]),
        count,
    })
}
