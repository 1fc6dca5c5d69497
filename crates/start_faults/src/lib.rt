// What the reader says of a message of each family when stepping starts.
#![tactic(auto)]

ghost use Rattle.std.specs.Prelude.{◌≡◌};
ghost use Rattle.octets.specs.Told.{told};
ghost use Rattle.layout.specs.Container.{parts_of};
ghost use Rattle.family.specs.Family.{read_in};
ghost use Rattle.isup.specs.Table.{isup};
ghost use Rattle.bicc.specs.Table.{bicc};
ghost use Rattle.sccp.specs.Table.{sccp};
ghost use Rattle.cursor.specs.Start.{refusal_by};

use layout::Shape;
use octets::Refusal;

// What the reader says of a message.
fn refusal_in(message: &[u8], width: u8, most: usize, row: Option<Shape>) -> Result<(), Refusal>
    ensures { told result ≡ refusal_by (parts_of message.now width most row) }
{
    reading::read_parts(message, width, most, row)?;
    Ok(())
}

// What ISUP's reader says of a message, beside `start_isup`.
pub fn refusal_isup(message: &[u8]) -> Result<(), Refusal>
    ensures { told result ≡ refusal_by (read_in isup message.now) }
{
    let kind = heads::kind_at(message, 2);
    refusal_in(message, 2, isup::LONGEST, isup_codec::shape_of(kind))
}

// What BICC's reader says of a message, beside `start_bicc`.
pub fn refusal_bicc(message: &[u8]) -> Result<(), Refusal>
    ensures { told result ≡ refusal_by (read_in bicc message.now) }
{
    let kind = heads::kind_at(message, 4);
    refusal_in(message, 4, bicc::LONGEST, bicc_codec::shape_of(kind))
}

// What SCCP's reader says of a message, beside `start_sccp`.
pub fn refusal_sccp(message: &[u8]) -> Result<(), Refusal>
    ensures { told result ≡ refusal_by (read_in sccp message.now) }
{
    let kind = heads::kind_at(message, 0);
    refusal_in(message, 0, sccp::LONGEST, sccp_codec::shape_of(kind))
}
