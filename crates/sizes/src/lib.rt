// Whether what is lent to the desk has the lengths that the desk's tables have.
#![tactic(auto)]

ghost use Rattle.std.specs.Prelude.{◌≡◌};
ghost use Rattle.sizes.specs.Sizes.{desk_sized_by};

// How many circuits there are, each with an octet in each table.
const CIRCUITS: usize = 4096;

// How many totals there are, one for each 64 circuits.
const BLOCKS: usize = 64;

// Whether tables, totals and ticks of these lengths are the desk's.
pub fn sized(states: usize, owners: usize, helpers: usize, totals: usize, ticks: usize) -> bool
    ensures { result ≡ desk_sized_by states owners helpers totals ticks }
{
    if states != CIRCUITS {
        return false;
    }
    if owners != CIRCUITS {
        return false;
    }
    if helpers != CIRCUITS {
        return false;
    }
    if totals != BLOCKS {
        return false;
    }
    ticks == CIRCUITS
}
