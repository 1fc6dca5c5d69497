// Called party numbers for C and Rust: reading and writing. With `llachurep`
// and its like they are one library.
#![tactic(auto)]

ghost use Rattle.std.specs.Prelude.{◌≡◌};
ghost use Rattle.number.specs.Read.{read_number_of};
ghost use Rattle.dialling.specs.Write.{write_number_of};
ghost use Rattle.boundary.specs.Boundary.{given, given_by};
ghost use Rattle.numbers.specs.Numbers.{number_given};

use octets::Numbered;

// Reads a called party number, its signals to the front of `signals`. Answers 4294967296 * N +
// 65536 * nature + 4096 * internal + 256 * plan + count. Refused with 14, then 13.
#[unsafe(no_mangle)]
pub extern "C" fn llachurep_number_read(contents: &[u8], signals: &mut [u8]) -> u64
    ensures { given result signals.new ≡
        number_given (read_number_of contents.now signals.old) }
{
    match signals::read_number(contents, signals) {
        Err(why) => 4294967296 * why.number() as u64,
        Ok(x) => {
            65536 * x.nature as u64
                + 4096 * x.internal as u64
                + 256 * x.plan as u64
                + x.count as u64
        }
    }
}

// Writes a called party number to the front of `out`. Accepted: how many octets were written.
// Refused with 14, then 13.
#[unsafe(no_mangle)]
pub extern "C" fn llachurep_number_write(
    nature: u32,
    plan: u32,
    internal: u32,
    signals: &[u8],
    out: &mut [u8],
) -> u32
    ensures { given result out.new ≡
        given_by (write_number_of nature plan internal signals.now out.old) }
{
    telling::written(keying::write_number(nature, plan, internal, signals, out))
}
