// What the desk answers to list, bicc-list and sccp-list: the optional
// parameters of a message, by the cursor's steps.
#![tactic(auto)]

ghost use Rattle.std.specs.Prelude.{◌≡◌, length};
ghost use Rattle.octets.specs.Told.{told};
ghost use Rattle.family.specs.Steps.{offer_at_lem, steps_from};
ghost use Rattle.isup.specs.Table.{isup};
ghost use Rattle.bicc.specs.Table.{bicc};
ghost use Rattle.sccp.specs.Table.{sccp};
ghost use Rattle.printing.specs.Sheet.{sheet, pour};
ghost use Rattle.requests.specs.Along.{said_in};
ghost use Rattle.list_lines.specs.Lists.{offer_text, steps_text, list_from, list_in, list_line_lem};
ghost use Rattle.list_lines.specs.Inside.{begun_line};

use forms::{BICC_LIST, LIST};
use octets::{Numbered, Refusal};
use requests::Request;
use runs::Field;

// Puts name and contents of a parameter from `at` on, and answers the next place.
fn put_param(message: &[u8], f: Field, out: &mut [u8], at: usize) -> usize
    ensures { sheet out.new result ≡
        pour (sheet out.old at) (offer_text message.now (Some f)) }
{
    let name = sayings::put_shown(b" ", &[f.name], out, at);
    sayings::put_shown(b" ", pieces::stretch(message, f.at, f.len), out, name)
}

// Puts the parameters that the cursor's steps give from octet `start` on, until a step says done,
// and answers the next place.
fn put_steps(message: &[u8], start: usize, out: &mut [u8], at: usize) -> usize
    ensures { sheet out.new result ≡
        pour (sheet out.old at) (steps_text message.now (steps_from (length message.now) message.now start)) }
{
    let mut place = start;
    let mut next = at;
    // Goes on to the end of the parameter that it read, so it counts no index.
    loop {
        match steps::step_of(message, place) {
            None => return next,
            Some(f) => {
                next = put_param(message, f, out, next);
                place = f.at + f.len;
            }
        }
    }
}

// Says the parameters from octet `start` on, or that there are none.
fn say_steps(message: &[u8], start: usize, out: &mut [u8]) -> usize
    ensures { sheet out.new result ≡
        pour (sheet out.old 0)
        (list_from message.now start (offer_at_lem message.now start)) }
{
    match steps::step_of(message, start) {
        None => printing::put_text(b"parameters -", out, 0),
        Some(_) => {
            let word = printing::put_text(b"parameters", out, 0);
            put_steps(message, start, out, word)
        }
    }
}

// Says what the start gives: the refusal with its octet, or the parameters.
fn say_list(message: &[u8], read: Result<(), Refusal>, start: usize, out: &mut [u8]) -> usize
    ensures { sheet out.new result ≡
        pour (sheet out.old 0) (begun_line message.now (told read) start) }
{
    match read {
        Ok(()) => say_steps(message, start, out),
        Err(why) => sayings::say_fault(why.number(), why.place(), out),
    }
}

// Lists an ISUP message.
fn say_isup(message: &[u8], out: &mut [u8]) -> usize
    ensures { sheet out.new result ≡
        pour (sheet out.old 0) (list_in isup message.now) }
{
    say_list(
        message,
        start_faults::refusal_isup(message),
        places::isup_place(message),
        out,
    )
}

// Lists a BICC message.
fn say_bicc(message: &[u8], out: &mut [u8]) -> usize
    ensures { sheet out.new result ≡
        pour (sheet out.old 0) (list_in bicc message.now) }
{
    say_list(
        message,
        start_faults::refusal_bicc(message),
        places::bicc_place(message),
        out,
    )
}

// Lists an SCCP message.
fn say_sccp(message: &[u8], out: &mut [u8]) -> usize
    ensures { sheet out.new result ≡
        pour (sheet out.old 0) (list_in sccp message.now) }
{
    say_list(
        message,
        start_faults::refusal_sccp(message),
        places::sccp_place(message),
        out,
    )
}

// Puts the answer's line to one of the three requests at the front of `out`, and answers the next
// place. What `out` has no room for is left out.
pub fn list_line(request: Request, octets: &[u8], out: &mut [u8]) -> usize
    ensures { sheet out.new result ≡
        pour (sheet out.old 0)
        (list_line_lem request.which (said_in octets.now request.fields)) }
{
    let fields = request.fields;
    let field = fields[0];
    let message = pieces::stretch(octets, field.from, field.count as usize);
    if request.which == LIST {
        return say_isup(message, out);
    }
    if request.which == BICC_LIST {
        return say_bicc(message, out);
    }
    say_sccp(message, out)
}
