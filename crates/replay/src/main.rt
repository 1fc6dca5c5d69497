// Replays a recorded day: a book on standard input, its lines on standard output once the input has
// ended. What a book is, what it comes to and what is said of it
// is decided in the crates below; here octets are read, handed on and written.
// Where standard input cannot be read, or the lines cannot be written, that is said on standard
// error, and the status is 1 then.
#![tactic(auto)]

use book::Place;
use std::io;
use std::io::{Read, Stdin};
use std::process::ExitCode;

// Says a fault on standard error, where that can be written.
fn tell(rt: &HostRuntime, fault: &str) {
    let _ = rt.eprintln(fault);
}

// Reads to the end and feeds what comes; `place` is where the book is then, where a read fails too.
fn read_all(
    mut input: Stdin,
    place: &mut Place,
    chunk: &mut [u8],
    buffer: &mut [u8],
    owners: &mut [u8],
    states: &mut [u8],
    accepted: &mut [u16],
    refused: &mut [u16],
) -> io::Result<()> {
    for _ in 0..u64::MAX {
        let n = input.read(chunk)?;
        if n == 0 {
            break;
        }
        *place = feeding::feed(
            *place,
            &chunk[..n],
            buffer,
            owners,
            states,
            accepted,
            refused,
        );
    }
    Ok(())
}

// Writes the first n octets of what was put together. Where they cannot be written, that is told,
// and the answer is false.
fn write_out(rt: &HostRuntime, out: &[u8], n: usize) -> bool {
    if n <= out.len() {
        if rt.write_all(&out[0..n]).is_ok() {
            return true;
        }
    }
    tell(rt, "replay: the lines could not be written");
    false
}

// Begins a day, reads all, and writes the report; answers whether there was no fault. Where the
// input could not be read, that is told, and the report is of what was read before.
fn run(
    rt: &HostRuntime,
    owners: &mut [u8],
    states: &mut [u8],
    chunk: &mut [u8],
    out: &mut [u8],
) -> bool {
    let mut buffer = [0u8; 268];
    let mut accepted = [0u16; 256];
    let mut refused = [0u16; 256];
    let mut place = opening::begin(owners, states, &mut accepted, &mut refused);
    let read = read_all(
        rt.stdin(),
        &mut place,
        chunk,
        &mut buffer,
        owners,
        states,
        &mut accepted,
        &mut refused,
    );
    if read.is_err() {
        tell(rt, "replay: standard input cannot be read");
    }
    let n = tallies::report(place, owners, states, &accepted, &refused, out);
    write_out(rt, out, n) && read.is_ok()
}

fn main(rt: HostRuntime) -> ExitCode {
    let mut owners = [0u8; 4096];
    let mut states = [0u8; 4096];
    let mut chunk = [0u8; 65536];
    let mut out = [0u8; 65536];
    if run(&rt, &mut owners, &mut states, &mut chunk, &mut out) {
        ExitCode::SUCCESS
    } else {
        ExitCode::FAILURE
    }
}
