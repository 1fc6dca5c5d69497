// The report of a day: a line for each sender that sent something, and a line of the sums.
#![tactic(auto)]

ghost use Rattle.std.specs.Prelude.{◌≡◌, eqb, ◌+◌, ◌%◌, ◌<◌, ◌≤◌, length};
ghost use Rattle.printing.specs.Sheet.{sheet, pour};
ghost use Rattle.book.specs.Awaits.{is_done};
ghost use Rattle.day.specs.Day.{day};
ghost use Rattle.tallies.specs.Lines.{added, four_numbers, line_of, shown_of, lines_for, Below};
ghost use Rattle.tallies.specs.Reports.{busy_of_lem, tally_in_lem, no_book, report_of};
ghost use Rattle.octets.specs.Octet.{octet};
ghost use Rattle.octets.specs.Choice.{when◌then◌else◌};

use book::{Await, Place};
use octets::{Numbered, Refusal};

// A sender's four numbers: messages, accepted, refused, circuits busy at the end.
#[derive(Clone, Copy)]
pub struct Tally {
    pub messages: usize,
    pub accepted: usize,
    pub refused: usize,
    pub busy: usize,
}

// 1 where a circuit is the sender's and busy.
fn busy_at(owner: u8, state: u8, sender: u8) -> usize
    ensures { (result ≡ (when eqb owner sender then state % 2 else 0)) × (result ≤ 1) }
{
    if owner == sender {
        return (state % 2) as usize;
    }
    0
}

// How many circuits are a sender's and busy.
fn busy_of(owners: &[u8], states: &[u8], sender: u8) -> usize
    requires { (length owners.now ≡ 4096) × (length states.now ≡ 4096) }
    ensures { (result ≡ busy_of_lem owners.now states.now sender 0 4096)
        × (result ≤ 4096) }
{
    owners
        .iter()
        .zip(states)
        .map(|(&owner, &state)| busy_at(owner, state, sender))
        .sum()
}

// The value of a counter.
fn counter(counters: &[u16], sender: u8) -> usize
    requires { length counters.now ≡ 256 }
    ensures { (result ≡ octet counters.now sender) × (result ≤ 65535) }
{
    let at = sender as usize;
    counters[at] as usize
}

// A sender's four numbers, each 0 where it sent nothing: its circuits are not counted then.
fn tally_in(sender: u8, owners: &[u8], states: &[u8], accepted: &[u16], refused: &[u16]) -> Tally
    requires { (length owners.now ≡ 4096) × (length states.now ≡ 4096)
        × (length accepted.now ≡ 256) × (length refused.now ≡ 256) }
    ensures { (result ≡ shown_of (tally_in_lem (day owners.now states.now accepted.now refused.now) sender)) × Below result 1 }
{
    let taken = counter(accepted, sender);
    let kept = counter(refused, sender);
    let messages = taken + kept;
    if messages == 0 {
        return Tally {
            messages: 0,
            accepted: 0,
            refused: 0,
            busy: 0,
        };
    }
    let busy = busy_of(owners, states, sender);
    Tally {
        messages: messages,
        accepted: taken,
        refused: kept,
        busy: busy,
    }
}

// Puts four numbers, each after a space, and LF.
fn put_numbers(t: Tally, out: &mut [u8], at: usize) -> usize
    ensures { sheet out.new result ≡
        pour (sheet out.old at) (four_numbers t) }
{
    let messages = sayings::put_count(b" ", t.messages, out, at);
    let accepted = sayings::put_count(b" ", t.accepted, out, messages);
    let refused = sayings::put_count(b" ", t.refused, out, accepted);
    let busy = sayings::put_count(b" ", t.busy, out, refused);
    printing::put_octet(b'\n', out, busy)
}

// Puts the line of a sender that sent something.
fn put_sender(sender: u8, t: Tally, out: &mut [u8], at: usize) -> usize
    ensures { sheet out.new result ≡
        pour (sheet out.old at) (line_of sender t) }
{
    if t.messages == 0 {
        return at;
    }
    let next = printing::put_number(sender as usize, out, at);
    put_numbers(t, out, next)
}

// Adds a sender's numbers, where there is a line of them.
fn add(sums: Tally, more: Tally, lines: usize) -> Tally
    requires { Below sums lines × Below more 1 × (lines < 256) }
    ensures { (result ≡ added sums (shown_of more)) × Below result (lines + 1) }
{
    if more.messages == 0 {
        return sums;
    }
    Tally {
        messages: sums.messages + more.messages,
        accepted: sums.accepted + more.accepted,
        refused: sums.refused + more.refused,
        busy: sums.busy + more.busy,
    }
}

// Puts a line for each sender that sent something, and the line of the sums.
fn put_lines(
    owners: &[u8],
    states: &[u8],
    accepted: &[u16],
    refused: &[u16],
    out: &mut [u8],
) -> usize
    requires { (length owners.now ≡ 4096) × (length states.now ≡ 4096)
        × (length accepted.now ≡ 256) × (length refused.now ≡ 256) }
    ensures { sheet out.new result ≡ pour (sheet out.old 0)
        (lines_for (tally_in_lem (day owners.now states.now accepted.now refused.now))) }
{
    let mut sums = Tally {
        messages: 0,
        accepted: 0,
        refused: 0,
        busy: 0,
    };
    let mut next = 0;
    for sender in 0..256 {
        let q = sender as u8;
        let t = tally_in(q, owners, states, accepted, refused);
        next = put_sender(q, t, out, next);
        sums = add(sums, t, sender);
    }
    let all = printing::put_text(b"all", out, next);
    put_numbers(sums, out, all)
}

// Whether the book has ended.
fn done(awaits: Await) -> bool
    ensures { result ≡ is_done awaits }
{
    matches!(awaits, Await::Done)
}

// Puts `refused 24`, and LF.
fn put_refusal(out: &mut [u8]) -> usize
    ensures { sheet out.new result ≡ pour (sheet out.old 0) no_book }
{
    let next = sayings::say_refusal(Refusal::NoBook.number(), out);
    printing::put_octet(b'\n', out, next)
}

// The end of the input: puts the lines of a book that has ended, else `refused 24`, at the front of
// `out`, and answers how many octets were put.
// What `out` has no room for is left out. Tables of other lengths: no book.
pub fn report(
    place: Place,
    owners: &[u8],
    states: &[u8],
    accepted: &[u16],
    refused: &[u16],
    out: &mut [u8],
) -> usize
    ensures { sheet out.new result ≡ pour (sheet out.old 0)
        (report_of place (day owners.now states.now accepted.now refused.now)) }
{
    let awaits = place.awaits;
    if !opening::sized(owners.len(), states.len(), accepted.len(), refused.len()) {
        return put_refusal(out);
    }
    if done(awaits) {
        return put_lines(owners, states, accepted, refused, out);
    }
    put_refusal(out)
}
