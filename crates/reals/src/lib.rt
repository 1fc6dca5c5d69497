// Values that a person types: a decimal of at most 15 digits, as the f64
// nearest to it, or the 64 bits of one.
#![tactic(auto)]

ghost use Rattle.std.specs.Prelude.{◌≡◌, false, ◌^◌, ◌≤◌, ◌<◌, length, drop};
ghost use Rattle.std.specs.Float.{binary64};
ghost use Rattle.std.specs.Float.Ieee.{of_bits, round};
ghost use Rattle.decimals.specs.Decimals.{part_from_lem, whole_from, hex_from, typed_of, real_of_lem, Sized};

// What the digits after the point go on to: `number` is what stood before, of so many `digits`.
fn part_from(word: &[u8], from: usize, before: u64, count: u64) -> Option<(u64, u64)>
    requires { (before < 10 ^ count) × (0 < count) × (count ≤ 15) }
    ensures { (result ≡ part_from_lem before count 1 (drop from word.now)) × Sized result }
{
    let mut number = before;
    let mut digits = count;
    let mut scale: u64 = 1;
    for i in from..word.len() {
        let digit = digits::value(word[i]);
        if 9 < digit {
            return None;
        }
        if 14 < digits {
            return None;
        }
        number = 10 * number + digit as u64;
        digits += 1;
        scale = 10 * scale;
    }
    Some((number, scale))
}

// The decimal from octet `from` on: 1 to 15 digits, with at most one point between them.
fn decimal_from(word: &[u8], from: usize) -> Option<(u64, u64)>
    ensures { (result ≡ whole_from 0 0 (drop from word.now)) × Sized result }
{
    let mut number: u64 = 0;
    let mut digits: u64 = 0;
    for i in from..word.len() {
        if word[i] == b'.' {
            if digits == 0 {
                return None;
            }
            if word.len() - i == 1 {
                return None;
            }
            return part_from(word, i + 1, number, digits);
        }
        let digit = digits::value(word[i]);
        if 9 < digit {
            return None;
        }
        if 14 < digits {
            return None;
        }
        number = 10 * number + digit as u64;
        digits += 1;
    }
    if digits == 0 {
        return None;
    }
    Some((number, 1))
}

// The f64 nearest to a fraction: two whole numbers that an f64 holds, and one division.
fn nearest(number: u64, scale: u64) -> f64
    requires { (number ≤ 1000000000000000) × (0 < scale) × (scale ≤ 1000000000000000) }
    ensures { result ≡ round binary64 false number scale }
{
    number as f64 / scale as f64
}

// The f64 nearest to the decimal from octet `from` on.
fn typed(word: &[u8], from: usize) -> Option<f64>
    ensures { result ≡ typed_of (drop from word.now) }
{
    match decimal_from(word, from) {
        None => None,
        Some((number, scale)) => Some(nearest(number, scale)),
    }
}

// The bits that hexadecimal digits from octet 2 on stand for, in a word of 18 octets.
fn pattern_from(word: &[u8]) -> Option<u64>
    requires { length word.now ≡ 18 }
    ensures { result ≡ hex_from 0 (drop 2 word.now) }
{
    let mut number: u64 = 0;
    for &octet in &word[2..] {
        let digit = digits::value(octet);
        if 15 < digit {
            return None;
        }
        number = 16 * number + digit as u64;
    }
    Some(number)
}

// The f64 of 64 bits; every pattern of a NaN is not a number.
fn of_pattern(bits: u64) -> f64
    ensures { result ≡ of_bits binary64 bits }
{
    if 9218868437227405312 < bits % 9223372036854775808 {
        return 0.0 / 0.0;
    }
    f64::from_bits(bits)
}

// The f64 that a word stands for: `0x` and 16 hexadecimal digits, its bits; or a decimal, with `-`
// in front for one below zero.
pub fn real_of(word: &[u8]) -> Option<f64>
    ensures { result ≡ real_of_lem word.now }
{
    if word.len() == 0 {
        return None;
    }
    if word[0] == b'-' {
        return match typed(word, 1) {
            None => None,
            Some(x) => Some(-x),
        };
    }
    if word.len() != 18 {
        return typed(word, 0);
    }
    if word[1] != b'x' {
        return typed(word, 0);
    }
    if word[0] != b'0' {
        return typed(word, 0);
    }
    match pattern_from(word) {
        None => None,
        Some(bits) => Some(of_pattern(bits)),
    }
}
