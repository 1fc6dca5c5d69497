// Digits, words and numbers of a line: where a word ends, and what a word of digits stands for.
#![tactic(auto)]

ghost use Rattle.std.specs.Prelude.{◌≡◌, ◌≤◌};
ghost use Rattle.words.specs.Digits.{value_of};
ghost use Rattle.words.specs.Words.{word_end_lem, number_of, octet_of_lem, all_digits_lem};

// What a hexadecimal digit of either case stands for; 16 for an octet that is no digit.
pub fn value(digit: u8) -> u8
    ensures { (result ≡ value_of digit) × (result ≤ 16) }
{
    if digit < b'0' {
        return 16;
    }
    if digit <= b'9' {
        return digit - b'0';
    }
    if digit < b'A' {
        return 16;
    }
    if digit <= b'F' {
        return digit - 55;
    }
    if digit < b'a' {
        return 16;
    }
    if digit <= b'f' {
        return digit - 87;
    }
    16
}

// Where the word that begins at `from` ends: at the first space from there
// on, or at the line's end.
pub fn word_end(line: &[u8], from: usize) -> usize
    ensures { result ≡ word_end_lem line.now from }
{
    for at in from..line.len() {
        if line[at] == b' ' {
            return at;
        }
    }
    line.len().max(from)
}

// The number that a word of decimal digits stands for, up to `most`.
pub fn number_of(word: &[u8], most: u32) -> Option<u32>
    ensures { result ≡ number_of most word.now }
{
    if word.len() == 0 {
        return None;
    }
    if 10 < word.len() {
        return None;
    }
    let mut number: u64 = 0;
    for &octet in word {
        let digit = value(octet);
        if 9 < digit {
            return None;
        }
        number = 10 * number + digit as u64;
        if (most as u64) < number {
            return None;
        }
    }
    Some(number as u32)
}

// Whether each octet of a word is a hexadecimal digit.
fn all_digits(word: &[u8]) -> bool
    ensures { result ≡ all_digits_lem word.now }
{
    word.iter().all(|&octet| value(octet) <= 15)
}

// The octet that a word of two hexadecimal digits stands for.
pub fn octet_of(word: &[u8]) -> Option<u32>
    ensures { result ≡ octet_of_lem word.now }
{
    if word.len() == 2 {
        if all_digits(word) {
            let high = value(word[0]) as u32;
            let low = value(word[1]) as u32;
            return Some((16 * high + low) % 256);
        }
    }
    None
}
