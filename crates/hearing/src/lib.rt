// A message of a recorded day, heard by the hub and counted.
#![tactic(auto)]

ghost use Rattle.std.specs.Prelude.{◌≡◌, ◌+◌, ◌%◌, ◌<◌};
ghost use Rattle.day.specs.Hub.{heard_as, heard_of};
ghost use Rattle.day.specs.Day.{day, one_more_lem, heard_in_lem};

// One more in a sender's counter of 16 bits, where there is one.
fn count_one(counters: &mut [u16], sender: u8)
    ensures { counters.new ≡ one_more_lem counters.old sender }
{
    let at = sender as usize;
    if at < counters.len() {
        let n = counters[at];
        counters[at] = ((n as u32 + 1) % 65536) as u16;
    }
}

// The hub hears a message: the rows change, and whether it was accepted is answered. A book names
// no helpers. The owners are lent in their place: who helps only what it owns helps nothing
// (`owners-help-none`), and no table of zeros has to be made for each message.
fn hear(owners: &[u8], states: &mut [u8], sender: u8, message: &[u8]) -> bool
    ensures { heard_as states.new result ≡
        heard_of owners.now states.old sender message.now }
{
    let mut answer = [0u8; 268];
    acting::act(states, owners, owners, sender as u32, message, &mut answer).is_ok()
}

// The hub hears a message, and it is counted.
pub fn heard_in(
    owners: &[u8],
    states: &mut [u8],
    accepted: &mut [u16],
    refused: &mut [u16],
    sender: u8,
    message: &[u8],
)
    ensures { day owners.now states.new accepted.new
        refused.new ≡
        heard_in_lem sender message.now (day owners.now states.old accepted.old refused.old) }
{
    if hear(owners, states, sender, message) {
        count_one(accepted, sender);
        return;
    }
    count_one(refused, sender);
}
