// The octets that a word of hexadecimal digits stands for, put into a lent buffer.
#![tactic(auto)]

ghost use Rattle.std.specs.Prelude.{◌≡◌, ◌+◌, ◌*◌, ◌/◌, ◌≤◌, ◌<◌, length};
ghost use Rattle.words.specs.Into.{entry, pairs_into, octets_into_lem};

// Puts the octets that an even number of digits stands for into a buffer from
// `at` on, up to the first that is no digit.
fn put_pairs(word: &[u8], out: &mut [u8], at: usize) -> Option<u32>
    requires { (length word.now ≡ 2 * (length word.now / 2))
        × (at + length word.now / 2 ≤ length out.old) × (length word.now / 2 < 4294967296) }
    ensures { entry result out.new ≡
        pairs_into word.now out.old at 0 }
{
    let pairs = word.len() / 2;
    for count in 0..pairs {
        let high = digits::value(word[2 * count]);
        if 15 < high {
            return None;
        }
        let low = digits::value(word[2 * count + 1]);
        if 15 < low {
            return None;
        }
        out[at + count] = 16 * high + low;
    }
    Some(pairs as u32)
}

// Puts the octets that a word stands for into a buffer from `at` on, and answers how many: `-` for
// none, or two hexadecimal digits for each of up to `most`.
// It is no such word, or the buffer has no room: nothing is put, but for the
// octets before one that is no digit.
pub fn octets_into(word: &[u8], most: u32, out: &mut [u8], at: usize) -> Option<u32>
    ensures { entry result out.new ≡
        octets_into_lem most word.now out.old at }
{
    if word.len() == 1 {
        if word[0] == b'-' {
            return Some(0);
        }
        return None;
    }
    if word.len() == 0 {
        return None;
    }
    if (most as usize) < word.len() / 2 {
        return None;
    }
    if word.len() % 2 == 1 {
        return None;
    }
    if out.len() < at {
        return None;
    }
    if out.len() - at < word.len() / 2 {
        return None;
    }
    put_pairs(word, out, at)
}
