// What becomes of a row, what may be said of it, and what a query answers for it.
#![tactic(auto)]

ghost use Rattle.std.specs.Prelude.{◌≡◌};
ghost use Rattle.octets.specs.Octet.{octet};
ghost use Rattle.rows.specs.Rows.{is_legal, blocked_row, unblocked_row, changed_row, local_row, circuit_state_lem};

use rows::Act;

// Whether a row is one that the paper has.
#[tactic(auto, unfolding(rows::specs::Rows::is_legal))]
pub fn legal(row: u8) -> bool
    ensures { result ≡ is_legal row }
{
    matches!(row, 0..=4 | 6 | 8..=12 | 14)
}

// A row with a block of that kind set, 0 for maintenance; a block for hardware also ends busy.
fn blocked(block: u8, row: u8) -> u8
    ensures { result ≡ blocked_row block row }
{
    if block == 0 {
        return row / 4 * 4 + 2 + row % 2;
    }
    (row / 8 * 8 + 4 + row % 4) / 2 * 2
}

// A row with a block of that kind cleared.
fn unblocked(block: u8, row: u8) -> u8
    ensures { result ≡ unblocked_row block row }
{
    if block == 0 {
        return row / 4 * 4 + row % 2;
    }
    row / 8 * 8 + row % 4
}

// What an act makes of a marked circuit's row. Only the acts on groups come with a kind of block; a
// block of one circuit is for maintenance. The kind stays a number: any octet is answered for.
pub fn changed(act: Act, block: u8, row: u8) -> u8
    ensures { result ≡ changed_row act block row }
{
    match act {
        Act::Seize => 1,
        Act::Release => row / 2 * 2,
        Act::Reset => row / 8 % 2 * 8,
        Act::Block => blocked(0, row),
        Act::Unblock => unblocked(0, row),
        Act::ResetGroup => row / 8 % 2 * 8,
        Act::BlockGroup => blocked(block, row),
        Act::UnblockGroup => unblocked(block, row),
        Act::Query => row,
    }
}

// A row with our own block set or cleared; all else that it says stays.
pub fn local_block(set: bool, row: u8) -> u8
    ensures { result ≡ local_row set row }
{
    if set {
        return row / 16 * 16 + 8 + row % 8;
    }
    row / 16 * 16 + row % 8
}

// Octet i of a list, 0 beyond its end: a row of a group, or an octet of its status.
pub fn octet_at(list: &[u8], i: usize) -> u8
    ensures { result ≡ octet list.now i }
{
    if i < list.len() { list[i] } else { 0 }
}

// What a circuit state octet says of a row: call processing in its bits D C, remote and local
// maintenance in B A, remote hardware in F E.
pub fn circuit_state(row: u8) -> u8
    ensures { result ≡ circuit_state_lem row }
{
    12 - 8 * (row % 2) + 2 * (row / 2 % 2) + 32 * (row / 4 % 2) + row / 8 % 2
}
