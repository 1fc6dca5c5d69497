// Where stepping starts in a message of each family, and a cursor there.
#![tactic(auto)]

ghost use Rattle.std.specs.Prelude.{◌≡◌};
ghost use Rattle.layout.specs.Container.{parts_of};
ghost use Rattle.family.specs.Steps.{start_by, start_in};
ghost use Rattle.isup.specs.Table.{isup};
ghost use Rattle.bicc.specs.Table.{bicc};
ghost use Rattle.sccp.specs.Table.{sccp};

use cursor::Cursor;
use layout::Shape;

// Where stepping starts: the first octet of the optional run; past the message where it has none,
// or where the reader refuses it.
fn place_in(message: &[u8], width: u8, most: usize, row: Option<Shape>) -> usize
    ensures { result ≡
        start_by message.now (parts_of message.now width most row) }
{
    match reading::read_parts(message, width, most, row) {
        Err(_) => message.len(),
        Ok(parts) => {
            let run = parts.optional;
            let from = run.from;
            if from < run.to {
                return from;
            }
            message.len()
        }
    }
}

// Where stepping through an ISUP message starts, for whoever holds no cursor.
pub fn isup_place(message: &[u8]) -> usize
    ensures { result ≡ start_in isup message.now }
{
    let kind = heads::kind_at(message, 2);
    place_in(message, 2, isup::LONGEST, isup_codec::shape_of(kind))
}

// Where stepping through a BICC message starts, for whoever holds no cursor.
pub fn bicc_place(message: &[u8]) -> usize
    ensures { result ≡ start_in bicc message.now }
{
    let kind = heads::kind_at(message, 4);
    place_in(message, 4, bicc::LONGEST, bicc_codec::shape_of(kind))
}

// Where stepping through an SCCP message starts, for whoever holds no cursor.
pub fn sccp_place(message: &[u8]) -> usize
    ensures { result ≡ start_in sccp message.now }
{
    let kind = heads::kind_at(message, 0);
    place_in(message, 0, sccp::LONGEST, sccp_codec::shape_of(kind))
}

// The cursor at the first parameter of an ISUP message.
pub fn start_isup<'a>(message: &'a [u8]) -> Cursor<'a>
    ensures { (result.message ≡ message.entry)
        × (result.at ≡ start_in isup message.now) }
{
    steps::resume(message, isup_place(message))
}

// The cursor at the first parameter of a BICC message.
pub fn start_bicc<'a>(message: &'a [u8]) -> Cursor<'a>
    ensures { (result.message ≡ message.entry)
        × (result.at ≡ start_in bicc message.now) }
{
    steps::resume(message, bicc_place(message))
}

// The cursor at the first parameter of an SCCP message.
pub fn start_sccp<'a>(message: &'a [u8]) -> Cursor<'a>
    ensures { (result.message ≡ message.entry)
        × (result.at ≡ start_in sccp message.now) }
{
    steps::resume(message, sccp_place(message))
}
