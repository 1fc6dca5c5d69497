// A book is read as it comes, in chunks of any size, and replayed.
#![tactic(auto)]

ghost use Rattle.std.specs.Prelude.{◌≡◌, [], ◌+◌, ◌-◌, ◌<◌, ◌≤◌, length, take};
ghost use Rattle.octets.specs.Applied.{spread};
ghost use Rattle.book.specs.Awaits.{want_of};
ghost use Rattle.day.specs.Day.{day, machine};
ghost use Rattle.machine.specs.Machine.{spanned, spanned_of, head_come, completed, step_of, machine_of, fits, fed_of, Ready, stored_of, fed};
ghost use Rattle.octets.specs.Octet.{octet};

use book::{Await, Place};

// One less, and 0 stays 0.
fn one_less(n: usize) -> usize
    ensures { result ≡ n - 1 }
{
    if n == 0 {
        return 0;
    }
    n - 1
}

// Makes each entry of a table from the first to the last that octet.
fn spread_over(table: &mut [u8], first: usize, last: usize, octet: u8)
    requires { (first ≤ last) × (last ≤ 4095) × (length table.old ≡ 4096) }
    ensures { table.new ≡ spread table.old first last octet }
{
    table[first..=last].fill(octet);
}

// A span has come.
fn take_span(
    left: usize,
    next: usize,
    first: usize,
    last: usize,
    sender: u8,
    owners: &mut [u8],
) -> Await
    requires { length owners.old ≡ 4096 }
    ensures { spanned result owners.new ≡
        spanned_of left next first last sender owners.old }
{
    if book::bad_span(next, first, last, sender) {
        return Await::Bad;
    }
    spread_over(owners, first, last, sender);
    book::spans_await(one_less(left), last + 1)
}

// The head of a message has come; one with no octets has come whole.
fn take_head(
    left: usize,
    sender: u8,
    size: usize,
    nothing: &[u8],
    owners: &[u8],
    states: &mut [u8],
    accepted: &mut [u16],
    refused: &mut [u16],
) -> Await
    requires { nothing.now ≡ [] }
    ensures { machine result [] (day owners.now states.new accepted.new refused.new) ≡
        head_come left sender size (day owners.now states.old accepted.old refused.old) }
{
    if 268 < size {
        return Await::Bad;
    }
    if size == 0 {
        hearing::heard_in(owners, states, accepted, refused, sender, nothing);
        return book::entries_await(one_less(left));
    }
    Await::Body(left, sender, size)
}

// All that was awaited has come: it stands at the buffer's front.
fn complete(
    awaits: Await,
    buffer: &[u8],
    owners: &mut [u8],
    states: &mut [u8],
    accepted: &mut [u16],
    refused: &mut [u16],
) -> Await
    requires { (want_of awaits ≤ length buffer.now) × (5 ≤ length buffer.now)
        × (length owners.old ≡ 4096) }
    ensures { machine result [] (day owners.new states.new accepted.new refused.new) ≡
        completed awaits (take (want_of awaits) buffer.now) (day owners.old states.old accepted.old refused.old) }
{
    match awaits {
        Await::SpanCount => book::spans_await(book::word(buffer[0], buffer[1]), 0),
        Await::Span(left, next) => take_span(
            left,
            next,
            book::word(buffer[0], buffer[1]),
            book::word(buffer[2], buffer[3]),
            buffer[4],
            owners,
        ),
        Await::MessageCount => book::entries_await(book::word(buffer[0], buffer[1])),
        Await::Head(left) => take_head(
            left,
            buffer[0],
            book::word(buffer[1], buffer[2]),
            &buffer[0..0],
            owners,
            states,
            accepted,
            refused,
        ),
        Await::Body(left, sender, size) => {
            hearing::heard_in(owners, states, accepted, refused, sender, &buffer[..size]);
            book::entries_await(one_less(left))
        }
        Await::Done => Await::Bad,
        Await::Bad => Await::Bad,
    }
}

// An octet has come.
fn step(
    place: Place,
    octet: u8,
    buffer: &mut [u8],
    owners: &mut [u8],
    states: &mut [u8],
    accepted: &mut [u16],
    refused: &mut [u16],
) -> Place
    requires { Ready place (length buffer.old) × (length owners.old ≡ 4096) }
    ensures { (machine_of result buffer.new (day owners.new states.new accepted.new refused.new) ≡
        step_of (machine_of place buffer.old (day owners.old states.old accepted.old refused.old)) octet)
        × Ready result (length buffer.new)
        × (buffer.new ≡ stored_of (machine_of place buffer.old (day owners.old states.old accepted.old refused.old)) buffer.old octet) }
{
    let awaits = place.awaits;
    let held = place.held;
    let wanted = book::want(awaits);
    if wanted == 0 {
        let over = Await::Bad;
        return Place {
            awaits: over,
            held: 0,
        };
    }
    buffer[held] = octet;
    if held + 1 < wanted {
        return Place {
            awaits: awaits,
            held: held + 1,
        };
    }
    let then = complete(awaits, buffer, owners, states, accepted, refused);
    Place {
        awaits: then,
        held: 0,
    }
}

// Whether less has come than is awaited, and a buffer has room for that.
fn ready(place: Place, room: usize) -> bool
    ensures { result ≡ fits place room }
{
    let held = place.held;
    let awaits = place.awaits;
    let wanted = book::want(awaits);
    if wanted == 0 {
        return held == 0;
    }
    if held < wanted {
        if 268 < wanted {
            return false;
        }
        return 268 <= room;
    }
    false
}

// Takes octets of the book in. What has come of what is awaited stands at the front of `buffer`.
// Tables or a buffer of other lengths, or a place that no book has: the tables
// are kept, and then there is no book.
pub fn feed(
    place: Place,
    chunk: &[u8],
    buffer: &mut [u8],
    owners: &mut [u8],
    states: &mut [u8],
    accepted: &mut [u16],
    refused: &mut [u16],
) -> Place
    ensures { fed result buffer.new (day owners.new states.new accepted.new refused.new) ≡
        fed_of place buffer.old (day owners.old states.old accepted.old refused.old) chunk.now }
{
    let mut at = place;
    if !opening::sized(owners.len(), states.len(), accepted.len(), refused.len()) {
        return Place {
            awaits: Await::Bad,
            held: 0,
        };
    }
    if !ready(at, buffer.len()) {
        return Place {
            awaits: Await::Bad,
            held: 0,
        };
    }
    for &octet in chunk {
        at = step(at, octet, buffer, owners, states, accepted, refused);
    }
    at
}
