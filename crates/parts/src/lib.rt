// The parts of a message: where each stands, what it holds, and whether two of them share an octet.
#![tactic(auto)]

ghost use Rattle.std.specs.Prelude.{◌≡◌};
ghost use Rattle.octets.specs.Told.{told};
ghost use Rattle.parts.specs.Overlap.{shares_of, later, contents_of_lem, run_of, judged};

use octets::Refusal;

// Octets from `from` up to and not including `to`. 0..0 stands for a part that is not there.
#[derive(Clone, Copy)]
pub struct Span {
    pub from: usize,
    pub to: usize,
}

// Where a message has its fixed part, the contents of its variable parameters (past their length
// octets) and its optional run (without the 0 that closes it).
#[derive(Clone, Copy)]
pub struct Parts {
    pub fixed: Span,
    pub first: Span,
    pub second: Span,
    pub third: Span,
    pub optional: Span,
}

// Whether the two share an octet.
fn shares(a: Span, b: Span) -> bool
    ensures { result ≡ shares_of a b }
{
    if b.to <= a.from {
        return false;
    }
    if a.to <= b.from {
        return false;
    }
    true
}

// The later start of the two.
fn later_start(a: Span, b: Span) -> usize
    ensures { result ≡ later a b }
{
    if a.from < b.from { b.from } else { a.from }
}

// A variable parameter without its length octet.
fn contents_of(part: Span) -> Span
    ensures { result ≡ contents_of_lem part }
{
    if part.from < part.to {
        return Span {
            from: part.from + 1,
            to: part.to,
        };
    }
    part
}

// An optional part without its closing 0.
fn run_of(part: Span) -> Span
    ensures { result ≡ run_of part }
{
    if part.from < part.to {
        return Span {
            from: part.from,
            to: part.to - 1,
        };
    }
    part
}

// The same, with every pair looked at.
fn judge_pairs(fixed: Span, a: Span, b: Span, c: Span, d: Span) -> Result<Parts, Refusal>
    ensures { told result ≡ judged fixed a b c d }
{
    if shares(a, b) {
        return Err(Refusal::SharedOctet(later_start(a, b)));
    }
    if shares(a, c) {
        return Err(Refusal::SharedOctet(later_start(a, c)));
    }
    if shares(a, d) {
        return Err(Refusal::SharedOctet(later_start(a, d)));
    }
    if shares(b, c) {
        return Err(Refusal::SharedOctet(later_start(b, c)));
    }
    if shares(b, d) {
        return Err(Refusal::SharedOctet(later_start(b, d)));
    }
    if shares(c, d) {
        return Err(Refusal::SharedOctet(later_start(c, d)));
    }
    Ok(Parts {
        fixed,
        first: contents_of(a),
        second: contents_of(b),
        third: contents_of(c),
        optional: run_of(d),
    })
}

// What the parts hold, from the octets that each takes: the fixed part, three variable
// parameters with their length octets, and the optional part with its closing 0. Or 8
// with the later start where two of them share an octet: the first pair that does, in
// pointer order, by first member and then by second.
// Where the first part is the only one, there is no pair to look at.
pub fn judge(fixed: Span, a: Span, b: Span, c: Span, d: Span) -> Result<Parts, Refusal>
    ensures { told result ≡ judged fixed a b c d }
{
    if b.to == 0 {
        if c.to == 0 {
            if d.to == 0 {
                return Ok(Parts {
                    fixed,
                    first: contents_of(a),
                    second: contents_of(b),
                    third: contents_of(c),
                    optional: run_of(d),
                });
            }
        }
    }
    judge_pairs(fixed, a, b, c, d)
}
