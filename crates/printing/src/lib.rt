// A line of an answer, put together in a lent buffer: texts, numbers in decimal
// digits, octets in hexadecimal ones.
#![tactic(auto)]

ghost use Rattle.std.specs.Prelude.{◌≡◌, ◌<◌};
ghost use Rattle.printing.specs.Sheet.{sheet, put, pour};
ghost use Rattle.printing.specs.Shown.{digit_of, decimal_in, decimal_of, hex_of};

// Puts an octet at `at`, where the buffer has room for it, and answers the next place.
pub fn put_octet(octet: u8, out: &mut [u8], at: usize) -> usize
    ensures { sheet out.new result ≡ put (sheet out.old at) octet }
{
    if at < out.len() {
        out[at] = octet;
        return at + 1;
    }
    at
}

// Puts a text, and answers the next place.
pub fn put_text(text: &[u8], out: &mut [u8], at: usize) -> usize
    ensures { sheet out.new result ≡
        pour (sheet out.old at) text.now }
{
    let mut next = at;
    for &octet in text {
        next = put_octet(octet, out, next);
    }
    next
}

// Puts the last `places` decimal digits of a number, with no zeros before
// it, and answers the next place.
fn put_digits(places: u8, number: usize, out: &mut [u8], at: usize) -> usize
    ensures { sheet out.new result ≡
        pour (sheet out.old at) (decimal_in places number) }
{
    if places == 0 {
        return at;
    }
    let mut next = at;
    if 9 < number {
        next = put_digits(places - 1, number / 10, out, at);
    }
    put_octet(b'0' + (number % 10) as u8, out, next)
}

// Puts a number in decimal digits, the last ten if it has more, and answers the next place.
pub fn put_number(number: usize, out: &mut [u8], at: usize) -> usize
    ensures { sheet out.new result ≡
        pour (sheet out.old at) (decimal_of number) }
{
    put_digits(10, number, out, at)
}

// The digit of a number below 16.
fn digit(n: u8) -> u8
    requires { n < 16 }
    ensures { result ≡ digit_of n }
{
    if n < 10 {
        return b'0' + n;
    }
    87 + n
}

// Puts octets in hexadecimal digits, `-` for none, and answers the next place.
pub fn put_octets(octets: &[u8], out: &mut [u8], at: usize) -> usize
    ensures { sheet out.new result ≡
        pour (sheet out.old at) (hex_of octets.now) }
{
    if octets.len() == 0 {
        return put_octet(b'-', out, at);
    }
    let mut next = at;
    for &octet in octets {
        next = put_octet(digit(octet / 16), out, next);
        next = put_octet(digit(octet % 16), out, next);
    }
    next
}
