// A message from a sender, handled: the rows of the circuits that it marks
// change, and the answer is written.
#![tactic(auto)]

ghost use Rattle.std.specs.Prelude.{◌≡◌, ◌⊎◌, ◌+◌, ◌/◌, ◌≤◌, ◌<◌, length};
ghost use Rattle.octets.specs.Told.{told};
ghost use Rattle.asks.specs.Asks.{Sound, mark_of};
ghost use Rattle.rights.specs.Tables.{tables};
ghost use Rattle.hub.specs.Rows.{rows_after};
ghost use Rattle.hub.specs.Replies.{status_in, reply_of};
ghost use Rattle.hub.specs.Deeds.{handling, handled_of};
ghost use Rattle.octets.specs.Filled.{leaving};
ghost use Rattle.replies.specs.Replies.{sent};

use asks::Ask;
use hub::Handled;
use octets::Refusal;
use rows::Act;

// Whether circuit m+n is marked.
fn marked(message: &[u8], status: usize, n: usize) -> bool
    requires { (status ≡ 0) ⊎ (status + n / 8 < length message.now) }
    ensures { result ≡ mark_of message.now status n }
{
    if status == 0 {
        return true;
    }
    let octet = message[status + n / 8];
    let by = (n % 8) as u8;
    (octet >> by) % 2 == 1
}

// Carries out what was granted: each named row that is marked changes, and every
// other row stays. A query changes none.
fn change_rows(states: &mut [u8], message: &[u8], ask: Ask)
    requires { (length states.old ≡ 4096) × Sound message.now ask }
    ensures { states.new ≡
        rows_after message.now ask states.old }
{
    let act = ask.act;
    if let Act::Query = act {
        return;
    }
    for i in 0..ask.range + 1 {
        let circuit = ask.circuit + i;
        if marked(message, ask.status, i) {
            states[circuit] = changes::changed(act, ask.block, states[circuit]);
        }
    }
}

// The status octets of the message, none where each named circuit is marked without one.
fn status_of(message: &[u8], status: usize, range: usize) -> &[u8]
    requires { (range ≤ 255) × ((status ≡ 0) ⊎ (status + range / 8 < length message.now)) }
    ensures { result.now ≡ status_in message.now status range }
{
    if status == 0 {
        return &message[0..0];
    }
    let end = status + range / 8 + 1;
    &message[status..end]
}

// Writes the answer to what was allowed, from the rows as they are: its octets fill the front of
// `answer` and their count is given; or 13, and all of `answer` is kept.
fn write_reply(states: &[u8], message: &[u8], ask: Ask, answer: &mut [u8]) -> Result<usize, Refusal>
    requires { (length states.now ≡ 4096) × Sound message.now ask }
    ensures { leaving (told result) answer.new ≡
        sent (reply_of states.now message.now ask) answer.old }
{
    let act = ask.act;
    let circuit = ask.circuit;
    let range = ask.range;
    let end = circuit + range + 1;
    let status = status_of(message, ask.status, range);
    replying::reply(
        act,
        circuit as u16,
        range as u8,
        ask.block,
        &states[circuit..end],
        status,
        answer,
    )
}

// A message from a sender: the answer's octets fill the front of `answer` and the named rows of
// `states` change. The answer has how many octets they are, and which circuits are named.
// Refused by the paper's order, the reader's numbers with the octet that they are about; a refusal
// changes no row and no octet of `answer`.
pub fn handle(
    states: &mut [u8],
    owners: &[u8],
    helpers: &[u8],
    sender: u32,
    message: &[u8],
    answer: &mut [u8],
) -> Result<Handled, Refusal>
    ensures { handling (told result) states.new answer.new ≡
        handled_of (tables states.old owners.now helpers.now) sender
        message.now answer.old }
{
    let ask = judging::judge(states, owners, helpers, sender, message)?;
    let count = write_reply(states, message, ask, answer)?;
    change_rows(states, message, ask);
    let first = ask.circuit;
    let last = first + ask.range;
    Ok(Handled { count, first, last })
}
