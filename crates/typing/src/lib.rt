// What a word says as a field of a kind: a number up to a limit, an octet,
// octets, or the word as it is typed.
#![tactic(auto)]

ghost use Rattle.std.specs.Prelude.{◌≡◌};
ghost use Rattle.words.specs.Into.{entry};
ghost use Rattle.fields.specs.Kinds.{not_below_lem};
ghost use Rattle.fields.specs.Letters.{most_of, kind_of};
ghost use Rattle.fields.specs.Placed.{word_into, entered};

// Any number of 32 bits.
const ANY_MOST: u32 = 4294967295;

// The last circuit.
const CIRCUIT_MOST: u32 = 4095;

// The largest number of one octet.
const OCTET_MOST: u32 = 255;

// The last block of circuits.
const BLOCK_MOST: u32 = 63;

// The largest code of a bearing or of a speed.
const CODE_MOST: u32 = 65535;

// The octets of answer buffer that a line may lend, at the most.
const ROOM_MOST: u32 = 1024;

// The octets of one field, at the most, where it is no plan.
const OCTETS_MOST: u32 = 1024;

// The octets of a plan, at the most: nine for each circuit.
const PLAN_MOST: u32 = 36864;

// The octets of a word that is kept as it is typed, at the most.
const TYPED_MOST: usize = 18;

// The limit of a number's kind.
fn most(letter: u8) -> u32
    ensures { result ≡ most_of letter }
{
    if letter == b'c' {
        return CIRCUIT_MOST;
    }
    if letter == b'v' {
        return OCTET_MOST;
    }
    if letter == b'b' {
        return BLOCK_MOST;
    }
    if letter == b'h' {
        return CODE_MOST;
    }
    if letter == b'r' {
        return ROOM_MOST;
    }
    if letter == b'p' {
        return PLAN_MOST;
    }
    ANY_MOST
}

// A number that is not below another.
fn not_below(least: u32, number: Option<u32>) -> Option<u32>
    ensures { result ≡ not_below_lem least number }
{
    match number {
        Some(value) => {
            if value < least {
                return None;
            }
            Some(value)
        }
        None => None,
    }
}

// Puts a word into the scratch as it is typed, and answers how many octets it has. It has more than
// 18, or the scratch has no room: nothing is put.
fn keep_word(word: &[u8], scratch: &mut [u8], next: usize) -> Option<u32>
    ensures { entry result scratch.new ≡
        word_into word.now scratch.old next }
{
    if TYPED_MOST < word.len() {
        return None;
    }
    if scratch.len() < next {
        return None;
    }
    if scratch.len() - next < word.len() {
        return None;
    }
    scratch[next..next + word.len()].copy_from_slice(word);
    Some(word.len() as u32)
}

// The number that a word stands for as a field of a kind, after a field that stands for `before`;
// or how many octets, which are put into the scratch.
pub fn value_of(
    letter: u8,
    before: u32,
    word: &[u8],
    scratch: &mut [u8],
    next: usize,
) -> Option<u32>
    ensures { entry result scratch.new ≡
        entered (kind_of letter) before word.now scratch.old next }
{
    if letter == b'o' {
        return digits::octet_of(word);
    }
    if letter == b's' {
        return hexes::octets_into(word, OCTETS_MOST, scratch, next);
    }
    if letter == b'q' {
        return hexes::octets_into(word, PLAN_MOST, scratch, next);
    }
    if letter == b'w' {
        return keep_word(word, scratch, next);
    }
    if letter == b'l' {
        return not_below(before, digits::number_of(word, CIRCUIT_MOST));
    }
    digits::number_of(word, most(letter))
}
