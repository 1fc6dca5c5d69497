// What the lines of the answers have in common: a word with a number or with octets, a refusal,
// what was written to a lent buffer.
#![tactic(auto)]

ghost use Rattle.std.specs.Prelude.{◌≡◌, ◌++◌};
ghost use Rattle.octets.specs.Octet.{octets};
ghost use Rattle.octets.specs.Told.{told_by};
ghost use Rattle.printing.specs.Sheet.{sheet, pour};
ghost use Rattle.printing.specs.Shown.{decimal_of, hex_of};
ghost use Rattle.lines.specs.Lines.{refusal, fault_line, written_line, again_line};

use octets::Numbered;

// Puts a word with a number after it, and answers the next place.
pub fn put_count(word: &[u8], number: usize, out: &mut [u8], at: usize) -> usize
    ensures { sheet out.new result ≡
        pour (sheet out.old at) (word.now ++ decimal_of number) }
{
    let next = printing::put_text(word, out, at);
    printing::put_number(number, out, next)
}

// Puts a word with octets after it, and answers the next place.
pub fn put_shown(word: &[u8], octets: &[u8], out: &mut [u8], at: usize) -> usize
    ensures { sheet out.new result ≡
        pour (sheet out.old at) (word.now ++ hex_of octets.now) }
{
    let next = printing::put_text(word, out, at);
    printing::put_octets(octets, out, next)
}

// Puts refused N at the front, and answers the next place.
pub fn say_refusal(number: u8, out: &mut [u8]) -> usize
    ensures { sheet out.new result ≡
        pour (sheet out.old 0) (refusal number) }
{
    put_count(b"refused ", number as usize, out, 0)
}

// Puts refused N at the front, with the octet that a reader's number from 3 to 8
// is about, and answers the next place.
pub fn say_fault(number: u8, place: usize, out: &mut [u8]) -> usize
    ensures { sheet out.new result ≡
        pour (sheet out.old 0) (fault_line number place) }
{
    let next = say_refusal(number, out);
    if number < 3 {
        return next;
    }
    if 8 < number {
        return next;
    }
    put_count(b" at ", place, out, next)
}

// Puts what was written to the front of a buffer, or the refusal, and answers the next place.
#[tactic(auto, unfolding(lines::specs::Lines::written_line))]
pub fn say_written<R: Numbered>(written: Result<usize, R>, buffer: &[u8], out: &mut [u8]) -> usize
    ensures { sheet out.new result ≡
        pour (sheet out.old 0)
        (written_line (told_by R.number_in R.place_in written) buffer.now) }
{
    match written {
        Ok(n) => put_shown(b"octets ", pieces::stretch(buffer, 0, n), out, 0),
        Err(why) => say_refusal(why.number(), out),
    }
}

// Puts what was written again to the front of a buffer, or the refusal with the
// reader's octet, and answers the next place.
#[tactic(auto, unfolding(lines::specs::Lines::written_line, lines::specs::Lines::again_line))]
pub fn say_again<R: Numbered>(written: Result<usize, R>, buffer: &[u8], out: &mut [u8]) -> usize
    ensures { sheet out.new result ≡
        pour (sheet out.old 0)
        (again_line (told_by R.number_in R.place_in written) buffer.now) }
{
    match written {
        Ok(_) => say_written(written, buffer, out),
        Err(why) => say_fault(why.number(), why.place(), out),
    }
}
