// What a message asks of the hub: which act, on which circuits, for which of them.
#![tactic(auto)]

ghost use Rattle.std.specs.Prelude.{◌≡◌, ◌+◌, ◌≤◌, length};
ghost use Rattle.octets.specs.Told.{told};
ghost use Rattle.octets.specs.Answer.{accepted};
ghost use Rattle.isup.specs.Limits.{last_circuit};
ghost use Rattle.asks.specs.Asks.{broken_range, broken_group, one_ask, range_ask, group_ask, unbroken, asked_in, ask_of};
ghost use Rattle.asks.specs.Inside.{Placed, looked};

use asks::Ask;
use isup::{BLO, CGB, CGU, CQM, GRS, IAM, LAST_CIRCUIT, REL, RSC, UBL};
use octets::Refusal;
use parts::Span;
use rows::Act;

// GRS and CQM have a range up to this.
const MOST_RANGE: usize = 31;

// CGB and CGU mark so many circuits at the most.
const MOST_MARKS: usize = 32;

// What GRS or CQM asks: 14 unless its contents are exactly the range's octet and the range is from
// the least on, to 31, then 18.
fn ask_range(
    message: &[u8],
    act: Act,
    circuit: usize,
    least: usize,
    contents: Span,
) -> Result<Ask, Refusal>
    requires { (contents.from ≤ contents.to) × (contents.to ≤ length message.now)
        × (circuit ≤ last_circuit) }
    ensures { told result ≡
        unbroken (broken_range least message.now contents)
        (range_ask message.now act circuit contents) }
{
    let from = contents.from;
    if contents.to - from != 1 {
        return Err(Refusal::BadContents);
    }
    let range = message[from] as usize;
    if range < least {
        return Err(Refusal::BadContents);
    }
    if range > MOST_RANGE {
        return Err(Refusal::BadContents);
    }
    if circuit + range > LAST_CIRCUIT as usize {
        return Err(Refusal::PastLastCircuit);
    }
    Ok(Ask {
        act,
        circuit,
        range,
        block: 0,
        status: 0,
    })
}

// What CGB or CGU asks: 14 unless the kind is 0 or 1, the range 1 to 255, the status as wide as it
// says and its marks 32 at the most, then 18.
fn ask_group(
    message: &[u8],
    act: Act,
    circuit: usize,
    indicator: u8,
    contents: Span,
) -> Result<Ask, Refusal>
    requires { (contents.from ≤ contents.to) × (contents.to ≤ length message.now)
        × (circuit ≤ last_circuit) }
    ensures { told result ≡
        unbroken (broken_group message.now indicator contents)
        (group_ask message.now act circuit indicator contents) }
{
    let block = indicator % 4;
    if block > 1 {
        return Err(Refusal::BadContents);
    }
    let from = contents.from;
    let size = contents.to - from;
    if size == 0 {
        return Err(Refusal::BadContents);
    }
    let range = message[from] as usize;
    if range == 0 {
        return Err(Refusal::BadContents);
    }
    if size != 1 + (range / 8 + 1) {
        return Err(Refusal::BadContents);
    }
    let status = from + 1;
    let to = contents.to;
    if marks::marks_in(message[from], &message[status..to]) > MOST_MARKS {
        return Err(Refusal::BadContents);
    }
    if circuit + range > LAST_CIRCUIT as usize {
        return Err(Refusal::PastLastCircuit);
    }
    Ok(Ask {
        act,
        circuit,
        range,
        block,
        status,
    })
}

// What a message that names one circuit asks.
fn ask_one(act: Act, circuit: usize) -> Result<Ask, Refusal>
    ensures { told result ≡ accepted (one_ask act circuit) }
{
    Ok(Ask {
        act,
        circuit,
        range: 0,
        block: 0,
        status: 0,
    })
}

// What a message that reads asks, by its type, circuit, where its fixed part starts and its first
// contents: 17 for a type that the hub does not act on, then 14, then 18.
// The type octet is looked at here and nowhere else.
fn ask_in(
    message: &[u8],
    kind: u8,
    circuit: usize,
    at: usize,
    contents: Span,
) -> Result<Ask, Refusal>
    requires { Placed message.now kind circuit at contents }
    ensures { told result ≡
        asked_in message.now (looked kind circuit at contents) }
{
    match kind {
        IAM => ask_one(Act::Seize, circuit),
        REL => ask_one(Act::Release, circuit),
        RSC => ask_one(Act::Reset, circuit),
        BLO => ask_one(Act::Block, circuit),
        UBL => ask_one(Act::Unblock, circuit),
        GRS => ask_range(message, Act::ResetGroup, circuit, 1, contents),
        CGB => ask_group(message, Act::BlockGroup, circuit, message[at], contents),
        CGU => ask_group(message, Act::UnblockGroup, circuit, message[at], contents),
        CQM => ask_range(message, Act::Query, circuit, 0, contents),
        _ => Err(Refusal::NotForHub),
    }
}

// What a message asks, from the message alone: the reader's numbers, 17, 14, 18.
pub fn decode(message: &[u8]) -> Result<Ask, Refusal>
    ensures { told result ≡ ask_of message.now }
{
    let x = isup_codec::read(message)?;
    let parts = x.parts;
    let fixed = parts.fixed;
    ask_in(message, x.kind, x.circuit as usize, fixed.from, parts.first)
}
