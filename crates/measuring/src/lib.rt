// How long the compact form of a message is, or which number refuses it, for any shape row and any
// header, from the lengths of its parts.
#![tactic(auto)]

ghost use Rattle.std.specs.Prelude.{◌≡◌, ◌≤◌};
ghost use Rattle.octets.specs.Told.{told};
ghost use Rattle.measuring.specs.Measure.{lacks_of, unfit_of, count_of, gap, reach, pointers_of_lem, too_long_lem, beyond_of, too_far_lem, run_size_lem, size_of, measure_of};

use layout::Shape;
use octets::Refusal;

// The most that a length octet or a pointer can say.
const LARGEST: usize = 255;

// How many octets there are of what is to be written, beside the type and the fixed octets that the
// shape counts: an unused content has none, and the run is without its closing 0.
#[derive(Clone, Copy)]
pub struct Lengths {
    pub head: usize,
    pub first: usize,
    pub second: usize,
    pub third: usize,
    pub run: usize,
}

// What the pointers say: to each variable parameter, and to the optional part.
// One that the shape lacks is not written.
#[derive(Clone, Copy)]
pub struct Pointers {
    pub first: usize,
    pub second: usize,
    pub third: usize,
    pub last: usize,
}

// The compact form once it is measured: what its pointers say, and how many octets it has.
#[derive(Clone, Copy)]
pub struct Frame {
    pub pointers: Pointers,
    pub size: usize,
}

// Whether there are contents for the k-th variable part of a type that has no such part.
fn lacks(vars: u8, k: u8, contents: &[u8]) -> bool
    ensures { result ≡ lacks_of vars k contents.now }
{
    if k < vars {
        return false;
    }
    0 < contents.len()
}

// Whether the shape has more than three variable parts, the fixed octets have another count than it
// says, or there are contents for a part that it lacks: 10.
pub fn unfit(
    shape: Shape,
    fixed: &[u8],
    first: &[u8],
    second: &[u8],
    third: &[u8],
    run: &[u8],
) -> bool
    ensures { result ≡
        unfit_of shape fixed.now first.now second.now
        third.now run.now }
{
    if 3 < shape.vars {
        return true;
    } else if fixed.len() != shape.fixed as usize {
        return true;
    } else if lacks(shape.vars, 0, first) {
        return true;
    } else if lacks(shape.vars, 1, second) {
        return true;
    } else if lacks(shape.vars, 2, third) {
        return true;
    } else if shape.opt {
        return false;
    }
    0 < run.len()
}

// How many variable parts are written: three at the most.
fn count_of(vars: u8) -> usize
    ensures { (result ≡ count_of vars) × (result ≤ 3) }
{
    if vars < 3 {
        return vars as usize;
    }
    3
}

// From the first pointer to the first parameter: as many octets as there are pointers.
fn gap_of(shape: Shape) -> usize
    ensures { (result ≡ gap shape) × (result ≤ 4) }
{
    let count = count_of(shape.vars);
    if shape.opt {
        return count + 1;
    }
    count
}

// What the optional pointer says, before a run of r octets that starts so far
// past it: 0 where the run is empty.
fn reach_of(r: usize, pointer: usize) -> usize
    ensures { result ≡ reach r pointer }
{
    if 0 < r {
        return pointer;
    }
    0
}

// Whether contents are longer than a length octet can say.
fn too_long(lengths: Lengths) -> bool
    ensures { result ≡ too_long_lem lengths }
{
    if LARGEST < lengths.first {
        return true;
    } else if LARGEST < lengths.second {
        return true;
    }
    LARGEST < lengths.third
}

// What the pointers say.
fn pointers_of(shape: Shape, lengths: Lengths) -> Pointers
    requires { (lengths.first ≤ 255) × (lengths.second ≤ 255) × (lengths.third ≤ 255) }
    ensures { result ≡ pointers_of_lem shape lengths }
{
    let first = gap_of(shape);
    let second = first + lengths.first;
    let third = second + lengths.second;
    let last = reach_of(lengths.run, third + lengths.third);
    Pointers {
        first,
        second,
        third,
        last,
    }
}

// Whether a pointer that is wanted is more than an octet can say.
fn beyond(wanted: bool, pointer: usize) -> bool
    ensures { result ≡ beyond_of wanted pointer }
{
    if wanted {
        return LARGEST < pointer;
    }
    false
}

// Whether a pointer is. The first is not.
fn too_far(vars: u8, pointers: Pointers) -> bool
    ensures { result ≡ too_far_lem vars pointers }
{
    if beyond(1 < vars, pointers.second) {
        return true;
    } else if beyond(2 < vars, pointers.third) {
        return true;
    }
    LARGEST < pointers.last
}

// How many octets an optional part has for a run of r octets: with its closing 0, or none.
fn run_size(r: usize) -> usize
    requires { r ≤ 65535 }
    ensures { (result ≡ run_size_lem r) × (result ≤ 65536) }
{
    if 0 < r {
        return r + 1;
    }
    0
}

// How many octets the compact form has.
fn size_of(shape: Shape, lengths: Lengths) -> usize
    requires { (lengths.first ≤ 255) × (lengths.second ≤ 255) × (lengths.third ≤ 255)
        × (lengths.head ≤ 65535) × (lengths.run ≤ 65535) }
    ensures { result ≡ size_of shape lengths }
{
    let front = lengths.head + 1 + shape.fixed as usize + gap_of(shape);
    let parts = count_of(shape.vars) + lengths.first + lengths.second + lengths.third;
    front + parts + run_size(lengths.run)
}

// The compact form's frame: 12 where a length or a pointer is more than an octet can say, then 2
// where there are more octets than `most`.
pub fn measure(shape: Shape, most: u16, lengths: Lengths) -> Result<Frame, Refusal>
    ensures { told result ≡ measure_of shape most lengths }
{
    if too_long(lengths) {
        return Err(Refusal::TooFar);
    }
    let pointers = pointers_of(shape, lengths);
    let longest = most as usize;
    if too_far(shape.vars, pointers) {
        return Err(Refusal::TooFar);
    } else if longest < lengths.head {
        return Err(Refusal::TooLong);
    } else if longest < lengths.run {
        return Err(Refusal::TooLong);
    }
    let size = size_of(shape, lengths);
    if longest < size {
        return Err(Refusal::TooLong);
    }
    Ok(Frame { pointers, size })
}
