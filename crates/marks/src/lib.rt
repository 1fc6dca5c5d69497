// The status of a group: how many circuits it marks, and the status octets of an answer.
#![tactic(auto)]

ghost use Rattle.std.specs.Prelude.{◌≡◌, ◌*◌, ◌≤◌, length};
ghost use Rattle.octets.specs.Sum.{total};
ghost use Rattle.marks.specs.Marks.{status_bit, cut_to, marks_in_lem, status_octet_lem, bits_in_lem, locked_octet_lem};

// The low bits of an octet, as many as the last status octet of that range
// has; the spare bits are 0.
pub fn cut(octet: u8, range: u8) -> u8
    ensures { result ≡ cut_to octet range }
{
    let spare = 2u16 << ((range % 8) as u16);
    (octet as u16 % spare) as u8
}

// How many bits of the first octets are 1, `count` octets of them.
fn ones_in(octets: &[u8], count: usize) -> u8
    requires { (count ≤ length octets.now) × (count ≤ 31) }
    ensures { result ≡ total (status_bit octets.now) 0 (8 * count) }
{
    octets[..count]
        .iter()
        .map(|octet| octet.count_ones() as u8)
        .sum()
}

// How many of the circuits m to m+range a status marks: its bits 0 to range that are 1. What is
// past the status's end counts as 0.
pub fn marks_in(range: u8, status: &[u8]) -> usize
    ensures { result ≡ marks_in_lem range status.now }
{
    let last = (range / 8) as usize;
    if last < status.len() {
        let whole = ones_in(status, last) as usize;
        return whole + u8::count_ones(cut(status[last], range)) as usize;
    }
    ones_in(status, status.len()) as usize
}

// Octet j of an answer's status: that of the message, its spare bits 0, and
// 0 where the message has none.
pub fn status_octet(range: u8, status: &[u8], j: usize) -> u8
    ensures { result ≡ status_octet_lem range status.now j }
{
    let octet = changes::octet_at(status, j);
    if j < (range / 8) as usize {
        return octet;
    }
    cut(octet, range)
}

// How many circuits octet j of a status is about: eight, or in the last octet as many as are left.
fn bits_in(range: u8, j: u8) -> u8
    ensures { result ≡ bits_in_lem range j }
{
    if j < range / 8 {
        return 8;
    }
    range % 8 + 1
}

// Octet j of the status that GRA has: a 1 for each circuit of the group that is locally blocked,
// low bit first, and spare bits 0.
pub fn locked_octet(range: u8, group: &[u8], j: u8) -> u8
    ensures { result ≡ locked_octet_lem range group.now j }
{
    let mut octet = 0u8;
    for bit in (0..bits_in(range, j)).rev() {
        let row = changes::octet_at(group, 8 * j as usize + bit as usize);
        octet = octet * 2 + row / 8 % 2;
    }
    octet
}
