// Finding optional parameters: the first of a name in the message, else in the customer's defaults.
#![tactic(auto)]

ghost use Rattle.std.specs.Prelude.{◌≡◌, []};
ghost use Rattle.octets.specs.Stretch.{Stretch};
ghost use Rattle.finding.specs.Find.{named_in, first_of, sought_in, locate_of, stretch_start, stretch_length, code_of, held_by_lem};
ghost use Rattle.finding.specs.Told.{located_told};

use finding::{Code, Located};
use octets::{Numbered, Refusal};
use parts::Span;

// The first parameter of that name in a message's optional run.
fn named_in(message: &[u8], run: Span, name: u8) -> Option<(usize, usize)>
    ensures { result ≡ named_in message.now run name }
{
    let from = run.from;
    if from < run.to {
        return runs::named(message, from, name);
    }
    None
}

// Where the first parameter of that name has its contents: in the message, else in
// the defaults, an optional run without its closing 0. Refused with the reader's
// numbers, then 11 for the defaults, then 15.
pub fn locate(message: &[u8], defaults: &[u8], name: u32) -> Result<Located, Refusal>
    ensures { located_told result ≡
        locate_of message.now defaults.now name }
{
    let x = isup_codec::read(message)?;
    let parts = x.parts;
    locate_in(message, parts.optional, defaults, name)
}

// The same in a message that reads, whose optional run is `run`.
fn locate_in(message: &[u8], run: Span, defaults: &[u8], name: u32) -> Result<Located, Refusal>
    ensures { located_told result ≡
        sought_in message.now run defaults.now name }
{
    if runs::is_run(defaults) {
        if 255 < name {
            return Err(Refusal::NotFound);
        }
        return first_of(message, run, defaults, name as u8);
    }
    Err(Refusal::BadRun)
}

// The message's first parameter of that name, else the defaults'.
fn first_of(message: &[u8], run: Span, defaults: &[u8], name: u8) -> Result<Located, Refusal>
    ensures { located_told result ≡
        first_of message.now run defaults.now name }
{
    match named_in(message, run, name) {
        Some((at, len)) => Ok(Located::Message(at, len)),
        None => match runs::named(defaults, 0, name) {
            Some((at, len)) => Ok(Located::Defaults(at, len)),
            None => Err(Refusal::NotFound),
        },
    }
}

// The contents of the first parameter of that name, as that stretch of the message itself; the
// empty stretch at its start where there is none.
pub fn find(message: &[u8], name: u32) -> &[u8]
    ensures { Stretch message.entry
        (stretch_start (locate_of message.now [] name))
        (stretch_length (locate_of message.now [] name)) result }
{
    find_or_default(message, &message[0..0], name)
}

// What `find` answers by: 0 where the message holds the parameter, or the
// refusal's number with its octet.
pub fn find_code(message: &[u8], name: u32) -> Code
    ensures { result ≡ code_of (locate_of message.now [] name) }
{
    find_or_default_code(message, &message[0..0], name)
}

// The contents of the first parameter of that name, as that stretch of the message, else of the
// defaults; the empty stretch at the message's start where neither has it.
pub fn find_or_default<'a>(message: &'a [u8], defaults: &'a [u8], name: u32) -> &'a [u8]
    ensures { Stretch
        (held_by_lem (locate_of message.now defaults.now name) message.entry defaults.entry)
        (stretch_start (locate_of message.now defaults.now name))
        (stretch_length (locate_of message.now defaults.now name)) result }
{
    match locate(message, defaults, name) {
        Ok(Located::Message(at, len)) => &message[at..at + len],
        Ok(Located::Defaults(at, len)) => &defaults[at..at + len],
        Err(_) => &message[0..0],
    }
}

// What `find_or_default` answers by: 0 where the message holds the parameter, 100 where the
// defaults do, or the refusal's number with its octet.
pub fn find_or_default_code(message: &[u8], defaults: &[u8], name: u32) -> Code
    ensures { result ≡ code_of (locate_of message.now defaults.now name) }
{
    match locate(message, defaults, name) {
        Ok(Located::Message(_, _)) => Code {
            number: 0,
            place: 0,
        },
        Ok(Located::Defaults(_, _)) => Code {
            number: 100,
            place: 0,
        },
        Err(why) => Code {
            number: why.number(),
            place: why.place(),
        },
    }
}
