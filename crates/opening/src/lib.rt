// The tables of a replay as a day begins: nothing is owned, busy, blocked or counted.
#![tactic(auto)]

ghost use Rattle.std.specs.Prelude.{◌≡◌, []};
ghost use Rattle.day.specs.Day.{day, machine, sized_by, begun_of};

use book::{Await, Place};

// Whether tables of these lengths are those of a replay.
pub fn sized(owners: usize, states: usize, accepted: usize, refused: usize) -> bool
    ensures { result ≡ sized_by owners states accepted refused }
{
    if owners == 4096 {
        if states == 4096 {
            if accepted == 256 {
                return refused == 256;
            }
        }
    }
    false
}

// Begins a book: every lent table is made 0. Tables of other lengths are
// kept, and then there is no book.
pub fn begin(
    owners: &mut [u8],
    states: &mut [u8],
    accepted: &mut [u16],
    refused: &mut [u16],
) -> Place
    ensures { (machine result.awaits [] (day owners.new states.new accepted.new refused.new) ≡
        begun_of (day owners.old states.old accepted.old refused.old)) × (result.held ≡ 0) }
{
    if sized(owners.len(), states.len(), accepted.len(), refused.len()) {
        owners.fill(0);
        states.fill(0);
        accepted.fill(0);
        refused.fill(0);
        return Place {
            awaits: Await::SpanCount,
            held: 0,
        };
    }
    Place {
        awaits: Await::Bad,
        held: 0,
    }
}
