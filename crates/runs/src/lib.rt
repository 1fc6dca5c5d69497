// A run of optional parameters: name (not 0), length, contents, one after the other; in a message,
// closed by a 0 where a name would stand.
// Octets are numbered from 0.
#![tactic(auto)]

ghost use Rattle.std.specs.Prelude.{◌≡◌};
ghost use Rattle.runs.specs.Run.{step_at_lem, stop_from, is_run_lem, named_from};

// An optional parameter: its name, and where its contents are.
#[derive(Clone, Copy)]
pub struct Field {
    pub name: u8,
    pub at: usize,
    pub len: usize,
}

// What stands where a name would stand: a parameter; the 0 that closes a run; nothing, the octets
// end there; or a parameter that passes their end.
#[derive(Clone, Copy)]
pub enum Step {
    Param(Field),
    Close,
    End,
    Pass,
}

// How a run of parameters ends, and where: at a 0, at the end of the octets,
// or at a parameter that passes it.
#[derive(Clone, Copy)]
pub enum Stop {
    Closed(usize),
    Ended(usize),
    Passed(usize),
}

// What stands at octet i of a run of optional parameters.
pub fn step_at(octets: &[u8], i: usize) -> Step
    ensures { result ≡ step_at_lem octets.now i }
{
    if octets.len() <= i {
        return Step::End;
    }
    let name = octets[i];
    if name == 0 {
        return Step::Close;
    }
    let at = i + 2;
    if octets.len() < at {
        return Step::Pass;
    }
    let len = octets[i + 1] as usize;
    if octets.len() < at + len {
        return Step::Pass;
    }
    Step::Param(Field { name, at, len })
}

// How the run of parameters that starts at `from` ends, and where.
pub fn run_stop(octets: &[u8], from: usize) -> Stop
    ensures { result ≡ stop_from octets.now from }
{
    // Goes on to the end of the parameter that it read, so it counts no index.
    let mut i = from;
    loop {
        match step_at(octets, i) {
            Step::Param(f) => {
                i = f.at + f.len;
            }
            Step::Close => return Stop::Closed(i),
            Step::End => return Stop::Ended(i),
            Step::Pass => return Stop::Passed(i),
        }
    }
}

// Whether the octets are whole optional parameters, none with name 0, to their
// very end: a run without its closing 0.
pub fn is_run(octets: &[u8]) -> bool
    ensures { result ≡ is_run_lem octets.now }
{
    match run_stop(octets, 0) {
        Stop::Closed(_) => false,
        Stop::Ended(_) => true,
        Stop::Passed(_) => false,
    }
}

// Where the first parameter of that name has its contents and how many octets they have, among
// those that stand one after the other from `from` on.
pub fn named(octets: &[u8], from: usize, name: u8) -> Option<(usize, usize)>
    ensures { result ≡ named_from octets.now from name }
{
    // Goes on to the end of the parameter that it read, so it counts no index.
    let mut i = from;
    loop {
        match step_at(octets, i) {
            Step::Param(f) => {
                if f.name == name {
                    return Some((f.at, f.len));
                }
                i = f.at + f.len;
            }
            Step::Close | Step::End | Step::Pass => return None,
        }
    }
}
