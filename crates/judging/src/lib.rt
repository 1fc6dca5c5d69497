// Whether the hub does what a message asks: the first refusal that stands
// against it, or what is asked.
#![tactic(auto)]

ghost use Rattle.std.specs.Prelude.{◌≡◌};
ghost use Rattle.octets.specs.Told.{told};
ghost use Rattle.rights.specs.Tables.{tables};
ghost use Rattle.hub.specs.Acts.{judged_of};

use asks::Ask;
use octets::Refusal;
use rows::CIRCUITS;

// What a message asks and is permitted, before its answer is looked at, or its refusal: 16, the
// reader's, 17, 14, 18, 19, 22, 20, 21.
pub fn judge(
    states: &[u8],
    owners: &[u8],
    helpers: &[u8],
    sender: u32,
    message: &[u8],
) -> Result<Ask, Refusal>
    ensures { told result ≡
        judged_of (tables states.now owners.now helpers.now) sender
        message.now }
{
    if states.len() != CIRCUITS {
        return Err(Refusal::WrongTables);
    }
    if owners.len() != CIRCUITS {
        return Err(Refusal::WrongTables);
    }
    if helpers.len() != CIRCUITS {
        return Err(Refusal::WrongTables);
    }
    let ask = asking::decode(message)?;
    permits::permit(states, owners, helpers, sender, ask)
}
