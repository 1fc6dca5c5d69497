// The boundary's functions that serve every family of messages: reading and writing again. With
// `llachurep` and its like they are one library for C and Rust.
// They are a crate of their own so that its object has one reader and one writer of parts, which
// the compiler puts where they are called.
#![tactic(auto)]

ghost use Rattle.std.specs.Prelude.{◌≡◌};
ghost use Rattle.isup.specs.Write.{compact_of};
ghost use Rattle.bicc.specs.Write.{call_compact_of};
ghost use Rattle.sccp.specs.Write.{sccp_compact_of};
ghost use Rattle.boundary.specs.Boundary.{given, given_by};

// Reads a message and writes it again, in its compact form, to the front of `out`. Accepted: how
// many octets were written. Refused with the reader's numbers and octets, then 12, then 13.
#[unsafe(no_mangle)]
pub extern "C" fn llachurep_compact(message: &[u8], out: &mut [u8]) -> u32
    ensures { given result out.new ≡
        given_by (compact_of message.now out.old) }
{
    telling::written(isup_codec::compact(message, out))
}

// Reads a BICC message and writes it again, in its compact form, to the front of `out`. Accepted:
// how many octets were written. Refused with the reader's numbers and octets, then 12, then 13.
#[unsafe(no_mangle)]
pub extern "C" fn llachurep_bicc_compact(message: &[u8], out: &mut [u8]) -> u32
    ensures { given result out.new ≡
        given_by (call_compact_of message.now out.old) }
{
    telling::written(bicc_codec::compact(message, out))
}

// Reads an SCCP message and writes it again, in its compact form, to the front of `out`. Accepted:
// how many octets were written. Refused with the reader's numbers and octets, then 12, then 13.
#[unsafe(no_mangle)]
pub extern "C" fn llachurep_sccp_compact(message: &[u8], out: &mut [u8]) -> u32
    ensures { given result out.new ≡
        given_by (sccp_compact_of message.now out.old) }
{
    telling::written(sccp_codec::compact(message, out))
}
