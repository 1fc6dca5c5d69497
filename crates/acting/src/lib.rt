// The hub for whoever keeps nothing beside the rows: the answer's octets are counted, and which
// circuits were named is not told.
#![tactic(auto)]

ghost use Rattle.std.specs.Prelude.{◌≡◌};
ghost use Rattle.octets.specs.Told.{told};
ghost use Rattle.rights.specs.Tables.{tables};
ghost use Rattle.hub.specs.Acts.{after, act_of};

use octets::Refusal;

// A message from a sender, as `handling::handle` has it: how many octets the
// answer has, or the refusal.
pub fn act(
    states: &mut [u8],
    owners: &[u8],
    helpers: &[u8],
    sender: u32,
    message: &[u8],
    answer: &mut [u8],
) -> Result<usize, Refusal>
    ensures { after (told result) states.new answer.new ≡
        act_of (tables states.old owners.now helpers.now) sender
        message.now answer.old }
{
    let done = handling::handle(states, owners, helpers, sender, message, answer)?;
    Ok(done.count)
}
