// Shows each sample message of document 01 with its outcome: what the hub answers and
// leaves in the rows, the called number, the compact form, the optional parameter, or
// the refusal's number with its octet.
#![tactic(auto)]

use finding::Located;
use octets::{Numbered, Refusal};
use rows::CIRCUITS;
use std::io;
use std::io::Stdout;

// The front of a buffer, or all of it where it is shorter.
fn front(buffer: &[u8], n: usize) -> &[u8] {
    if n <= buffer.len() {
        return &buffer[0..n];
    }
    buffer
}

// The rows of a group, or none where the table is shorter.
fn rows_of(states: &[u8], first: usize, range: usize) -> &[u8] {
    if states.len() < CIRCUITS {
        return &states[0..0];
    }
    if CIRCUITS <= first {
        return &states[0..0];
    }
    if CIRCUITS - 1 - first < range {
        return &states[0..0];
    }
    let end = first + range + 1;
    &states[first..end]
}

// Puts a refusal's number, and answers the next place.
fn put_refusal(why: Refusal, line: &mut [u8], at: usize) -> usize {
    let next = printing::put_text(b" refused ", line, at);
    printing::put_number(why.number() as usize, line, next)
}

// Puts a refusal's number and the octet that a reader's number from 3 to 8 is
// about; answers the next place.
fn put_fault(why: Refusal, line: &mut [u8], at: usize) -> usize {
    let next = put_refusal(why, line, at);
    if !(3..=8).contains(&why.number()) {
        return next;
    }
    let word = printing::put_text(b" at ", line, next);
    printing::put_number(why.place(), line, word)
}

// Puts octets after a word, and answers the next place.
fn put_shown(word: &[u8], octets: &[u8], line: &mut [u8], at: usize) -> usize {
    let next = printing::put_text(word, line, at);
    printing::put_octets(octets, line, next)
}

// Puts the circuits that a message names and their rows, and answers the next place.
fn put_rows(message: &[u8], states: &[u8], line: &mut [u8], at: usize) -> usize {
    match asking::decode(message) {
        Err(why) => put_fault(why, line, at),
        Ok(ask) => {
            let first = printing::put_text(b" first circuit ", line, at);
            let rows = printing::put_number(ask.circuit, line, first);
            put_shown(
                b" rows ",
                rows_of(states, ask.circuit, ask.range),
                line,
                rows,
            )
        }
    }
}

// Puts what the hub makes of a message, every row 0 before, every circuit the sender's and nobody's
// help; answers the next place.
fn put_acted(
    message: &[u8],
    states: &mut [u8],
    owners: &[u8],
    helpers: &[u8],
    answer: &mut [u8],
    line: &mut [u8],
    at: usize,
) -> usize {
    states.fill(0);
    match acting::act(states, owners, helpers, 1, message, answer) {
        Err(why) => put_fault(why, line, at),
        Ok(n) => {
            let next = put_shown(b" answer ", front(answer, n), line, at);
            put_rows(message, states, line, next)
        }
    }
}

// Puts the signals of a called number, and answers the next place.
fn put_signals(contents: &[u8], signals: &mut [u8], line: &mut [u8], at: usize) -> usize {
    match signals::read_number(contents, signals) {
        Err(why) => put_refusal(why, line, at),
        Ok(x) => put_shown(b" number ", front(signals, x.count), line, at),
    }
}

// The contents of a message's first variable parameter.
fn contents_of(message: &[u8], from: usize, to: usize) -> &[u8] {
    if to < from {
        return &message[0..0];
    }
    if message.len() < to {
        return &message[0..0];
    }
    &message[from..to]
}

// Puts the called number of an IAM, and answers the next place.
fn put_called(message: &[u8], signals: &mut [u8], line: &mut [u8], at: usize) -> usize {
    match isup_codec::read(message) {
        Err(why) => put_fault(why, line, at),
        Ok(x) => {
            let parts = x.parts;
            let first = parts.first;
            put_signals(
                contents_of(message, first.from, first.to),
                signals,
                line,
                at,
            )
        }
    }
}

// Puts the compact form of a message, and answers the next place.
fn put_compact(message: &[u8], out: &mut [u8], line: &mut [u8], at: usize) -> usize {
    match isup_codec::compact(message, out) {
        Err(why) => put_fault(why, line, at),
        Ok(n) => put_shown(b" compact ", front(out, n), line, at),
    }
}

// Puts the contents of the optional parameter with name 20, and answers the next place.
fn put_found(message: &[u8], line: &mut [u8], at: usize) -> usize {
    match locating::locate(message, &message[0..0], 0x20) {
        Err(why) => put_fault(why, line, at),
        Ok(Located::Message(_, _)) => {
            put_shown(
                b" name 20 contents ",
                locating::find(message, 0x20),
                line,
                at,
            )
        }
        Ok(Located::Defaults(_, _)) => at,
    }
}

// Ends a line and writes it.
fn write_line(output: Stdout, line: &mut [u8], at: usize) -> io::Result<()> {
    let n = printing::put_octet(b'\n', line, at);
    if n <= line.len() {
        return output.write_all(&line[0..n]);
    }
    Ok(())
}

// Shows what the hub makes of a message.
fn show_acted(
    output: Stdout,
    message: &[u8],
    states: &mut [u8],
    owners: &[u8],
    helpers: &[u8],
    answer: &mut [u8],
    line: &mut [u8],
) -> io::Result<()> {
    let at = printing::put_octets(message, line, 0);
    let end = put_acted(message, states, owners, helpers, answer, line, at);
    write_line(output, line, end)
}

// Shows the called number of a message.
fn show_called(
    output: Stdout,
    message: &[u8],
    signals: &mut [u8],
    line: &mut [u8],
) -> io::Result<()> {
    let at = printing::put_octets(message, line, 0);
    let end = put_called(message, signals, line, at);
    write_line(output, line, end)
}

// Shows the compact form of a message.
fn show_compact(output: Stdout, message: &[u8], out: &mut [u8], line: &mut [u8]) -> io::Result<()> {
    let at = printing::put_octets(message, line, 0);
    let end = put_compact(message, out, line, at);
    write_line(output, line, end)
}

// Shows the optional parameter of a message.
fn show_found(output: Stdout, message: &[u8], line: &mut [u8]) -> io::Result<()> {
    let at = printing::put_octets(message, line, 0);
    let end = put_found(message, line, at);
    write_line(output, line, end)
}

// Shows the paper's GRS and BLO.
fn show_reset_and_block(
    output: Stdout,
    states: &mut [u8],
    owners: &[u8],
    helpers: &[u8],
    answer: &mut [u8],
    line: &mut [u8],
) -> io::Result<()> {
    show_acted(
        output,
        b"\x05\x00\x17\x01\x01\x03",
        states,
        owners,
        helpers,
        answer,
        line,
    )?;
    show_acted(
        output,
        b"\x23\x01\x13",
        states,
        owners,
        helpers,
        answer,
        line,
    )
}

// Shows the paper's CGB and REL.
fn show_group_and_release(
    output: Stdout,
    states: &mut [u8],
    owners: &[u8],
    helpers: &[u8],
    answer: &mut [u8],
    line: &mut [u8],
) -> io::Result<()> {
    show_acted(
        output,
        b"\x08\x00\x18\x00\x01\x03\x09\x01\x02",
        states,
        owners,
        helpers,
        answer,
        line,
    )?;
    show_acted(
        output,
        b"\x01\x00\x0C\x02\x00\x02\x80\x90",
        states,
        owners,
        helpers,
        answer,
        line,
    )
}

// Shows the paper's rows with contents that pass the end and with a pointer that breaks the rule.
fn show_past_the_end(
    output: Stdout,
    states: &mut [u8],
    owners: &[u8],
    helpers: &[u8],
    answer: &mut [u8],
    line: &mut [u8],
) -> io::Result<()> {
    show_acted(
        output,
        b"\x01\x00\x0C\x02\x00\x03\x80\x90",
        states,
        owners,
        helpers,
        answer,
        line,
    )?;
    show_acted(
        output,
        b"\x01\x00\x0C\x01\x00",
        states,
        owners,
        helpers,
        answer,
        line,
    )
}

// Shows the paper's rows with a shared octet and with a part that is not closed.
fn show_shared(
    output: Stdout,
    states: &mut [u8],
    owners: &[u8],
    helpers: &[u8],
    answer: &mut [u8],
    line: &mut [u8],
) -> io::Result<()> {
    show_acted(
        output,
        b"\x01\x00\x0C\x02\x01\x01\x00\x00",
        states,
        owners,
        helpers,
        answer,
        line,
    )?;
    show_acted(
        output,
        b"\x01\x00\x09\x01",
        states,
        owners,
        helpers,
        answer,
        line,
    )
}

// Shows the paper's two rows at the end of the table.
fn show_last(
    output: Stdout,
    states: &mut [u8],
    owners: &[u8],
    helpers: &[u8],
    answer: &mut [u8],
    line: &mut [u8],
) -> io::Result<()> {
    show_acted(
        output,
        b"\xE0\x0F\x17\x01\x01\x1F",
        states,
        owners,
        helpers,
        answer,
        line,
    )?;
    show_acted(
        output,
        b"\xFF\x0F\x17\x01\x01\x01",
        states,
        owners,
        helpers,
        answer,
        line,
    )
}

// Shows the paper's rows on a called number, a compact form and an optional parameter.
fn show_parts(output: Stdout, answer: &mut [u8], line: &mut [u8]) -> io::Result<()> {
    show_called(
        output,
        b"\x01\x00\x01\x00\x60\x01\x0A\x00\x02\x00\x04\x03\x10\x21\x43",
        answer,
        line,
    )?;
    show_compact(output, b"\x01\x00\x09\x01\x00", answer, line)?;
    show_found(output, b"\x01\x00\x09\x01\x20\x01\x41\x00", line)?;
    show_found(output, b"\x01\x00\x09\x01\x20\x01\x41", line)
}

// Shows the paper's four rows that the hub accepts.
fn show_accepted(
    output: Stdout,
    states: &mut [u8],
    owners: &[u8],
    helpers: &[u8],
    answer: &mut [u8],
    line: &mut [u8],
) -> io::Result<()> {
    show_reset_and_block(output, states, owners, helpers, answer, line)?;
    show_group_and_release(output, states, owners, helpers, answer, line)
}

// Shows the paper's four rows that the reader refuses.
fn show_refused(
    output: Stdout,
    states: &mut [u8],
    owners: &[u8],
    helpers: &[u8],
    answer: &mut [u8],
    line: &mut [u8],
) -> io::Result<()> {
    show_past_the_end(output, states, owners, helpers, answer, line)?;
    show_shared(output, states, owners, helpers, answer, line)
}

// Shows the first eight, in the paper's order.
fn show_first(
    output: Stdout,
    states: &mut [u8],
    owners: &[u8],
    helpers: &[u8],
    answer: &mut [u8],
    line: &mut [u8],
) -> io::Result<()> {
    show_accepted(output, states, owners, helpers, answer, line)?;
    show_parts(output, answer, line)
}

// Shows the other six.
fn show_others(
    output: Stdout,
    states: &mut [u8],
    owners: &[u8],
    helpers: &[u8],
    answer: &mut [u8],
    line: &mut [u8],
) -> io::Result<()> {
    show_refused(output, states, owners, helpers, answer, line)?;
    show_last(output, states, owners, helpers, answer, line)
}

fn main(rt: HostRuntime) -> io::Result<()> {
    let mut states = [0u8; 4096];
    let mut owners = [0u8; 4096];
    let mut helpers = [0u8; 4096];
    let mut answer = [0u8; 4096];
    let mut line = [0u8; 4096];
    let output = rt.stdout();
    owners.fill(1);
    helpers.fill(0);
    show_first(
        output,
        &mut states,
        &owners,
        &helpers,
        &mut answer,
        &mut line,
    )?;
    show_others(
        output,
        &mut states,
        &owners,
        &helpers,
        &mut answer,
        &mut line,
    )
}
