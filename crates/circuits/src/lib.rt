// The boundary's functions on the tables of circuits, with the totals of busy circuits kept. With
// `llachurep` and its like they are one library for C and Rust.
// They are a crate of their own so that its object has one reader, which the
// compiler puts where it is called.
#![tactic(auto)]

ghost use Rattle.std.specs.Prelude.{◌≡◌, not, eqb};
ghost use Rattle.rights.specs.Tables.{tables};
ghost use Rattle.board.specs.Board.{board_of, desk_board_of};
ghost use Rattle.circuits.specs.Circuits.{called, called_by};

// A message from a sender. Accepted: how many octets the answer has, at the front of `answer`; the
// named rows of `states` change, and the totals of the blocks that hold them become the counts of
// their rows. Refused with 16, the reader's numbers and octets, 17, 14, 18, 19, 22, 20, 21, 13.
#[unsafe(no_mangle)]
pub extern "C" fn llachurep_act(
    states: &mut [u8],
    owners: &[u8],
    helpers: &[u8],
    totals: &mut [u8],
    sender: u32,
    message: &[u8],
    answer: &mut [u8],
) -> u32
    ensures { called result states.new totals.new answer.new ≡
        called_by (board_of (tables states.old owners.now helpers.now) totals.old sender message.now answer.old) }
{
    telling::written(counting::act(states, owners, helpers, totals, sender, message, answer))
}

// Our own block on a circuit: 0 for `set` clears it, anything else sets it. Accepted: 3, and the
// BLO or UBL to send stands at the front of `answer`; the circuit's row changes, and the total of
// its block becomes the count of its rows. Refused with 16, 9, 20, 13.
#[unsafe(no_mangle)]
pub extern "C" fn llachurep_block(
    states: &mut [u8],
    totals: &mut [u8],
    circuit: u32,
    set: u32,
    answer: &mut [u8],
) -> u32
    ensures { called result states.new totals.new answer.new ≡
        called_by (desk_board_of states.old totals.old circuit (not (eqb set 0)) answer.old) }
{
    telling::written(counting::desk_call(states, totals, circuit, set != 0, answer))
}
