// Stretches of lent octets, and a buffer of the most octets that a line may lend.
#![tactic(auto)]

ghost use Rattle.std.specs.Prelude.{◌≡◌, length, take};
ghost use Rattle.octets.specs.Octet.{octets};
ghost use Rattle.lines.specs.Lines.{blank};

// How many octets of answer buffer a line may lend.
const ROOM_MOST: usize = 1024;

// A buffer of as many octets as a line may lend, all 0.
pub fn blank_space() -> [u8; 1024]
    ensures { (result ≡ blank) × (length result ≡ 1024) }
{
    [0u8; ROOM_MOST]
}

// The front of a lent buffer: so many octets, as many of them as there are.
pub fn front(buffer: &mut [u8], count: usize) -> &mut [u8]
    ensures { result.now ≡ take count buffer.old }
{
    if buffer.len() < count {
        return buffer;
    }
    &mut buffer[..count]
}

// So many octets from a place on, as many of them as there are.
pub fn stretch(all: &[u8], from: usize, count: usize) -> &[u8]
    ensures { result.now ≡ octets all.now from count }
{
    if all.len() < from {
        return &all[0..0];
    }
    if all.len() - from < count {
        return &all[from..];
    }
    let to = from + count;
    &all[from..to]
}
