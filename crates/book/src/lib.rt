// A book as its octets come: what comes next, from the numbers so far.
#![tactic(auto)]

ghost use Rattle.std.specs.Prelude.{◌≡◌, ◌+◌, ◌*◌, ◌<◌};
ghost use Rattle.book.specs.Awaits.{want_of, spans_await_lem, entries_await_lem, bad_span_lem};

// What is awaited: a count of spans; a span, with how many are left and the first circuit that it
// may have; a count of messages; a message's head, with
// how many are left; its octets, with how many messages are left, the sender and the message's
// length; nothing more; nothing, since the book is no book.
#[derive(Clone, Copy)]
pub enum Await {
    SpanCount,
    Span(usize, usize),
    MessageCount,
    Head(usize),
    Body(usize, u8, usize),
    Done,
    Bad,
}

// Where a book is: what is awaited, and how many octets of it have come.
#[derive(Clone, Copy)]
pub struct Place {
    pub awaits: Await,
    pub held: usize,
}

// The number in two octets, low first.
pub fn word(low: u8, high: u8) -> usize
    ensures { result ≡ low + 256 * high }
{
    low as usize + 256 * high as usize
}

// How many octets are awaited; none where any octet is one too many.
pub fn want(awaits: Await) -> usize
    ensures { result ≡ want_of awaits }
{
    match awaits {
        Await::SpanCount => 2,
        Await::Span(_, _) => 5,
        Await::MessageCount => 2,
        Await::Head(_) => 3,
        Await::Body(_, _, size) => size,
        Await::Done => 0,
        Await::Bad => 0,
    }
}

// What is awaited where n spans are left, the next from circuit `next` on.
pub fn spans_await(n: usize, next: usize) -> Await
    ensures { result ≡ spans_await_lem n next }
{
    if n == 0 {
        return Await::MessageCount;
    }
    Await::Span(n, next)
}

// What is awaited where so many messages are left.
pub fn entries_await(left: usize) -> Await
    ensures { result ≡ entries_await_lem left }
{
    if left == 0 {
        return Await::Done;
    }
    Await::Head(left)
}

// Whether a span is not ascending, not disjoint, beyond the circuits, or nobody's.
pub fn bad_span(next: usize, first: usize, last: usize, sender: u8) -> bool
    ensures { result ≡ bad_span_lem next first last sender }
{
    if first < next {
        return true;
    }
    if last < first {
        return true;
    }
    if 4095 < last {
        return true;
    }
    sender == 0
}
