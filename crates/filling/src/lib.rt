// The compact form of a message of any shape row, with any header, put into a
// lent buffer. Each octet is stored once.
#![tactic(auto)]

ghost use Rattle.std.specs.Prelude.{◌≡◌, false, ◌∷◌, [], ◌+◌, ◌≤◌, ◌<◌, length};
ghost use Rattle.octets.specs.Told.{told};
ghost use Rattle.std.proofs.lemmas.List.Edits.{sets};
ghost use Rattle.octets.specs.Filled.{leaving};
ghost use Rattle.measuring.specs.Measure.{beyond_of};
ghost use Rattle.writing.specs.Write.{order, closed_run_lem, write_parts_of};
ghost use Rattle.writing.specs.Inside.{pointer_if, part_if, head_pieces, pointer_pieces, part_pieces, pieces, Near, Stored};

use layout::Shape;
use measuring::{Frame, Lengths, Pointers};
use octets::Refusal;

// One octet at `at`; the place past it.
fn put(out: &mut [u8], at: usize, octet: u8) -> usize
    requires { at < length out.old }
    ensures { Stored out.old at (octet ∷ []) result out.new }
{
    out[at] = octet;
    at + 1
}

// All of `octets` from `at` on; the place past them.
fn put_all(out: &mut [u8], at: usize, octets: &[u8]) -> usize
    requires { at + length octets.now ≤ length out.old }
    ensures { Stored out.old at octets.now result out.new }
{
    for j in 0..octets.len() {
        out[at + j] = octets[j];
    }
    at + octets.len()
}

// A pointer, where it is wanted; the place past it.
fn put_pointer(out: &mut [u8], at: usize, wanted: bool, pointer: usize) -> usize
    requires { (at + length (pointer_if wanted pointer) ≤ length out.old)
        × (beyond_of wanted pointer ≡ false) }
    ensures { Stored out.old at (pointer_if wanted pointer) result out.new }
{
    if wanted {
        return put(out, at, pointer as u8);
    }
    at
}

// A variable parameter, where it is wanted: its length octet, then its contents; the place past it.
fn put_part(out: &mut [u8], at: usize, wanted: bool, contents: &[u8]) -> usize
    requires { (at + length (part_if wanted contents.now) ≤ length out.old)
        × (length contents.now ≤ 255) }
    ensures { Stored out.old at (part_if wanted contents.now) result
        out.new }
{
    if wanted {
        let past = put(out, at, contents.len() as u8);
        return put_all(out, past, contents);
    }
    at
}

// The optional part: the run and the 0 that closes it, or nothing where the
// run is empty; the place past it.
fn put_run(out: &mut [u8], at: usize, run: &[u8]) -> usize
    requires { at + length (closed_run_lem run.now) ≤ length out.old }
    ensures { Stored out.old at (closed_run_lem run.now) result
        out.new }
{
    if run.len() == 0 {
        return at;
    }
    let past = put_all(out, at, run);
    put(out, past, 0)
}

// The header, the type and the fixed octets, from the start on; the place past them.
fn put_head(out: &mut [u8], head: &[u8], kind: u8, fixed: &[u8]) -> usize
    requires { length (head_pieces head.now kind fixed.now) ≤ length out.old }
    ensures { Stored out.old 0
        (head_pieces head.now kind fixed.now) result out.new }
{
    let typed = put_all(out, 0, head);
    let past = put(out, typed, kind);
    put_all(out, past, fixed)
}

// The pointers that the shape has, from `at` on; the place past them.
fn put_pointers(out: &mut [u8], at: usize, shape: Shape, pointers: Pointers) -> usize
    requires { (at + length (pointer_pieces shape pointers) ≤ length out.old)
        × Near shape pointers }
    ensures { Stored out.old at (pointer_pieces shape pointers) result
        out.new }
{
    let one = put_pointer(out, at, 0 < shape.vars, pointers.first);
    let two = put_pointer(out, one, 1 < shape.vars, pointers.second);
    let three = put_pointer(out, two, 2 < shape.vars, pointers.third);
    put_pointer(out, three, shape.opt, pointers.last)
}

// The variable parameters and the optional part, from `at` on; the place past them.
fn put_parts(
    out: &mut [u8],
    at: usize,
    vars: u8,
    first: &[u8],
    second: &[u8],
    third: &[u8],
    run: &[u8],
) -> usize
    requires { (at + length (part_pieces vars first.now second.now third.now run.now) ≤ length out.old) × (length first.now ≤ 255) × (length second.now ≤ 255) × (length third.now ≤ 255) }
    ensures { Stored out.old at (part_pieces vars first.now second.now third.now run.now) result out.new }
{
    let one = put_part(out, at, 0 < vars, first);
    let two = put_part(out, one, 1 < vars, second);
    let three = put_part(out, two, 2 < vars, third);
    put_run(out, three, run)
}

// Stores the whole compact form, which was measured and for which there is room.
fn store(
    shape: Shape,
    frame: Frame,
    head: &[u8],
    kind: u8,
    fixed: &[u8],
    first: &[u8],
    second: &[u8],
    third: &[u8],
    run: &[u8],
    out: &mut [u8],
)
    requires { (length (pieces shape frame head.now kind fixed.now first.now second.now third.now run.now) ≤ length out.old) × Near shape frame.pointers × (length first.now ≤ 255) × (length second.now ≤ 255) × (length third.now ≤ 255) }
    ensures { out.new ≡
        sets out.old 0 (pieces shape frame head.now kind fixed.now first.now second.now third.now run.now) }
{
    let pointing = put_head(out, head, kind, fixed);
    let holding = put_pointers(out, pointing, shape, frame.pointers);
    put_parts(out, holding, shape.vars, first, second, third, run);
}

// Writes the compact form of a message of that shape: fills the front of `out` and keeps the rest,
// and answers how many octets were written.
// Refused with 10, 11, 12, 2, 13 in that order, all before the first store,
// and then `out` holds what it held.
pub fn write_parts(
    shape: Shape,
    most: u16,
    head: &[u8],
    kind: u8,
    fixed: &[u8],
    first: &[u8],
    second: &[u8],
    third: &[u8],
    run: &[u8],
    out: &mut [u8],
) -> Result<usize, Refusal>
    ensures { leaving (told result) out.new ≡
        write_parts_of shape most (order head.now kind fixed.now first.now second.now third.now run.now) out.old }
{
    if measuring::unfit(shape, fixed, first, second, third, run) {
        return Err(Refusal::Misfit);
    } else if !runs::is_run(run) {
        return Err(Refusal::BadRun);
    }
    let lengths = Lengths {
        head: head.len(),
        first: first.len(),
        second: second.len(),
        third: third.len(),
        run: run.len(),
    };
    let frame = measuring::measure(shape, most, lengths)?;
    let size = frame.size;
    if out.len() < size {
        return Err(Refusal::NoRoom);
    }
    store(
        shape, frame, head, kind, fixed, first, second, third, run, out,
    );
    Ok(size)
}
