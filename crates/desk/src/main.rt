// The desk: one request a line on standard input, one answer a line on standard
// output. Lines are answered as they come.
// Where an answer cannot be written the desk ends there, so that no answer stands in another's
// place; where standard input cannot be read it ends too.
// Either is said on standard error, and the status is 1 then.
#![tactic(auto)]

ghost use Rattle.std.specs.Prelude.{◌≡◌, ◌≤◌, length, take};

use std::io::{Read, Stdin, Stdout};
use std::process::ExitCode;

// What ends the desk before its input has ended.
#[derive(Clone, Copy)]
enum Fault {
    Unread,
    Unwritten,
}

// What is said of a fault.
fn saying(fault: Fault) -> &'static str {
    match fault {
        Fault::Unread => "desk: standard input cannot be read",
        Fault::Unwritten => "desk: an answer could not be written, and the desk ends there",
    }
}

// Writes the first n octets of an answer, all of them before more is read.
fn write_out(output: Stdout, out: &[u8], n: usize) -> Result<(), Fault> {
    if n <= out.len() {
        if output.write_all(&out[0..n]).is_ok() {
            return Ok(());
        }
    }
    Err(Fault::Unwritten)
}

// The length of a line without the CR right before its LF.
fn without_cr(line: &[u8], length: usize) -> usize {
    if 0 < length {
        if length <= line.len() {
            if line[length - 1] == b'\r' {
                return length - 1;
            }
        }
    }
    length
}

// The octet at `at`, which is then the next place, where it is one of those up to `end`.
fn octet_at(chunk: &[u8], at: &mut usize, end: usize) -> Option<u8> {
    let i = *at;
    if end <= i {
        return None;
    }
    let octet = *chunk.get(i)?;
    *at = i + 1;
    Some(octet)
}

// The next octet of the input: of what was read and stands in `chunk` from `at` to `end`, or, where
// all that is taken, of what is read next; none where the input has ended.
fn next_octet(
    mut input: Stdin,
    chunk: &mut [u8],
    at: &mut usize,
    end: &mut usize,
) -> Result<Option<u8>, Fault> {
    if *at < *end {
        return Ok(octet_at(chunk, at, *end));
    }
    let Ok(got) = input.read(chunk) else {
        return Err(Fault::Unread);
    };
    *at = 0;
    *end = got;
    Ok(octet_at(chunk, at, got))
}

// Puts the octets up to the next LF, or to the input's end, into `line`, and answers how many there
// are; a CR before the LF is left out.
// At the input's end there is no more. Where it cannot be read, a line that may be cut off is nothing.
fn next_line(
    input: Stdin,
    chunk: &mut [u8],
    at: &mut usize,
    end: &mut usize,
    line: &mut [u8],
    more: &mut bool,
) -> Result<usize, Fault> {
    let mut held: usize = 0;
    for _ in 0..u64::MAX {
        let Some(octet) = next_octet(input, chunk, at, end)? else {
            *more = false;
            return Ok(held);
        };
        if octet == b'\n' {
            return Ok(without_cr(line, held));
        }
        held = printing::put_octet(octet, line, held);
    }
    *more = false;
    Ok(0)
}

// How many octets of a line there are to answer: `held`, where the line is as long.
fn within(line: &[u8], held: usize) -> usize
    ensures in_bounds { result ≤ length line.now }
    ensures front { result ≡ length (take result line.now) }
{
    if held <= line.len() {
        return held;
    }
    0
}

// Whether there is no line to answer: none is left, and nothing is held of a last one.
fn is_over(more: bool, held: usize) -> bool {
    if more {
        return false;
    }
    held == 0
}

// Answers the input line by line, a last line that has no LF too.
fn answer_all(input: Stdin, output: Stdout) -> Result<(), Fault> {
    let mut states = [0u8; 4096];
    let mut owners = [0u8; 4096];
    let mut helpers = [0u8; 4096];
    let mut totals = [0u8; 64];
    let mut ticks = [0u8; 4096];
    // Arrays of fixed length, lent on with a place beside each: nothing is allocated.
    let mut chunk = [0u8; 65536];
    let mut line = [0u8; 98304];
    let mut scratch = [0u8; 65536];
    let mut out = [0u8; 81920];
    let mut at: usize = 0;
    let mut end: usize = 0;
    let mut more = true;
    for _ in 0..u64::MAX {
        let held = next_line(input, &mut chunk, &mut at, &mut end, &mut line, &mut more)?;
        if is_over(more, held) {
            break;
        }
        let length = within(&line, held);
        let n = answers::answer(
            &line[..length],
            &mut states,
            &mut owners,
            &mut helpers,
            &mut totals,
            &mut ticks,
            &mut scratch,
            &mut out,
        );
        write_out(output, &out, n)?;
        if !more {
            break;
        }
    }
    Ok(())
}

// Answers standard input. A fault is said on standard error, where that can be written.
fn main(rt: HostRuntime) -> ExitCode {
    match answer_all(rt.stdin(), rt.stdout()) {
        Ok(()) => ExitCode::SUCCESS,
        Err(fault) => {
            let _ = rt.eprintln(saying(fault));
            ExitCode::FAILURE
        }
    }
}
