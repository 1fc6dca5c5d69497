// Which form a line has by its first word: a row of the table of forms, with
// the letters of its fields' kinds.
#![tactic(auto)]

ghost use Rattle.std.specs.Prelude.{◌≡◌, ◌≤◌};
ghost use Rattle.forms.specs.Table.{forms};
ghost use Rattle.forms.specs.Inside.{letter_of, key_of, row_in};

// A row of the table: its number, and a letter for the kind of each field, the
// first letter in the lowest octet; and the letters of the word's other form, which
// is the next row, 0 where it has none.
#[derive(Clone, Copy)]
pub struct Row {
    pub which: usize,
    pub letters: u64,
    pub longer: u64,
}

// The rows of the table by name, written by tools/forms.

// shape TYPE
pub const SHAPE: usize = 0;

// read MESSAGE
pub const READ: usize = 1;

// write CIRCUIT TYPE FIXED FIRST SECOND OPTIONAL ROOM
pub const WRITE: usize = 2;

// compact MESSAGE ROOM
pub const COMPACT: usize = 3;

// find NAME MESSAGE DEFAULTS
pub const FIND: usize = 4;

// number CONTENTS ROOM
pub const NUMBER: usize = 5;

// dial NATURE PLAN INTERNAL SIGNALS ROOM
pub const DIAL: usize = 6;

// own FIRST LAST SENDER
pub const OWN: usize = 7;

// helper FIRST LAST SENDER
pub const HELPER: usize = 8;

// set FIRST LAST STATE
pub const SET: usize = 9;

// rows FIRST LAST
pub const ROWS: usize = 10;

// act SENDER MESSAGE ROOM
pub const ACT: usize = 11;

// block CIRCUIT ROOM
pub const BLOCK: usize = 12;

// unblock CIRCUIT ROOM
pub const UNBLOCK: usize = 13;

// velocity BEARING SPEED
pub const VELOCITY: usize = 14;

// velocity BEARING SPEED VERTICAL MARK
pub const VELOCITY_LONG: usize = 15;

// velocity-back BEARING SPEED
pub const VELOCITY_BACK: usize = 16;

// velocity-back BEARING SPEED VERTICAL MARK
pub const VELOCITY_BACK_LONG: usize = 17;

// bicc-shape TYPE
pub const BICC_SHAPE: usize = 18;

// bicc-read MESSAGE
pub const BICC_READ: usize = 19;

// bicc-write CODE TYPE FIXED FIRST SECOND OPTIONAL ROOM
pub const BICC_WRITE: usize = 20;

// bicc-compact MESSAGE ROOM
pub const BICC_COMPACT: usize = 21;

// sccp-shape TYPE
pub const SCCP_SHAPE: usize = 22;

// sccp-read MESSAGE
pub const SCCP_READ: usize = 23;

// sccp-write TYPE FIXED FIRST SECOND THIRD OPTIONAL ROOM
pub const SCCP_WRITE: usize = 24;

// sccp-compact MESSAGE ROOM
pub const SCCP_COMPACT: usize = 25;

// list MESSAGE
pub const LIST: usize = 26;

// bicc-list MESSAGE
pub const BICC_LIST: usize = 27;

// sccp-list MESSAGE
pub const SCCP_LIST: usize = 28;

// busy FIRST LAST
pub const BUSY: usize = 29;

// totals
pub const TOTALS: usize = 30;

// total BLOCK VALUE
pub const TOTAL: usize = 31;

// rebuild
pub const REBUILD: usize = 32;

// tick FIRST LAST OCTET
pub const TICK: usize = 33;

// plan SENDER KIND ROOM
pub const PLAN: usize = 34;

// check SENDER KIND PLAN
pub const CHECK: usize = 35;

// A line that is no request.
pub const BAD: usize = 255;

// The letters of a word that has a number, at the most.
const WORD_MOST: usize = 13;

// a to z are 1 to 26, a dash is 27; 0 for any other octet.
fn letter(c: u8) -> u64
    ensures { (result ≡ letter_of c) × (result ≤ 27) }
{
    if b'z' < c {
        return 0;
    }
    if 96 < c {
        return (c - 96) as u64;
    }
    if c == b'-' {
        return 27;
    }
    0
}

// The number that stands for a word: 28 for each place, the first letter
// first; 0 where it has none.
fn key(word: &[u8]) -> u64
    ensures { result ≡ key_of word.now }
{
    if WORD_MOST < word.len() {
        return 0;
    }
    let mut key: u64 = 0;
    for i in (0..word.len()).rev() {
        let digit = letter(word[i]);
        if digit == 0 {
            return 0;
        }
        key = 28 * key + digit;
    }
    key
}

// The table: a row for each key. Its rows are written by tools/forms.
fn row_of(key: u64) -> Row
    ensures { result ≡ row_in forms 0 key }
{
    match key {
        // shape o
        3425539 => Row {
            which: SHAPE,
            letters: 0x6f,
            longer: 0,
        },
        // read s
        88750 => Row {
            which: READ,
            letters: 0x73,
            longer: 0,
        },
        // write nossssr
        3519903 => Row {
            which: WRITE,
            letters: 0x72737373736f6e,
            longer: 0,
        },
        // compact sr
        9690413687 => Row {
            which: COMPACT,
            letters: 0x7273,
            longer: 0,
        },
        // find oss
        99042 => Row {
            which: FIND,
            letters: 0x73736f,
            longer: 0,
        },
        // number sr
        312914602 => Row {
            which: NUMBER,
            letters: 0x7273,
            longer: 0,
        },
        // dial nnnsr
        264464 => Row {
            which: DIAL,
            letters: 0x72736e6e6e,
            longer: 0,
        },
        // own clv
        11635 => Row {
            which: OWN,
            letters: 0x766c63,
            longer: 0,
        },
        // helper clv
        313220692 => Row {
            which: HELPER,
            letters: 0x766c63,
            longer: 0,
        },
        // set clv
        15839 => Row {
            which: SET,
            letters: 0x766c63,
            longer: 0,
        },
        // rows cl
        435558 => Row {
            which: ROWS,
            letters: 0x6c63,
            longer: 0,
        },
        // act nsr
        15765 => Row {
            which: ACT,
            letters: 0x72736e,
            longer: 0,
        },
        // block nr
        6839170 => Row {
            which: BLOCK,
            letters: 0x726e,
            longer: 0,
        },
        // unblock nr
        5361909693 => Row {
            which: UNBLOCK,
            letters: 0x726e,
            longer: 0,
        },
        // velocity ww wwww
        347118095010 => Row {
            which: VELOCITY,
            letters: 0x7777,
            longer: 0x77777777,
        },
        // velocity-back hh hhvw
        2579609345834404514 => Row {
            which: VELOCITY_BACK,
            letters: 0x6868,
            longer: 0x77766868,
        },
        // bicc-shape o
        58954803452526 => Row {
            which: BICC_SHAPE,
            letters: 0x6f,
            longer: 0,
        },
        // bicc-read s
        1527436824174 => Row {
            which: BICC_READ,
            letters: 0x73,
            longer: 0,
        },
        // bicc-write nossssr
        60578842618478 => Row {
            which: BICC_WRITE,
            letters: 0x72737373736f6e,
            longer: 0,
        },
        // bicc-compact sr
        166775585642170990 => Row {
            which: BICC_COMPACT,
            letters: 0x7273,
            longer: 0,
        },
        // sccp-shape o
        58954803737751 => Row {
            which: SCCP_SHAPE,
            letters: 0x6f,
            longer: 0,
        },
        // sccp-read s
        1527437109399 => Row {
            which: SCCP_READ,
            letters: 0x73,
            longer: 0,
        },
        // sccp-write osssssr
        60578842903703 => Row {
            which: SCCP_WRITE,
            letters: 0x7273737373736f,
            longer: 0,
        },
        // sccp-compact sr
        166775585642456215 => Row {
            which: SCCP_COMPACT,
            letters: 0x7273,
            longer: 0,
        },
        // list s
        454200 => Row {
            which: LIST,
            letters: 0x73,
            longer: 0,
        },
        // bicc-list s
        7816965809774 => Row {
            which: BICC_LIST,
            letters: 0x73,
            longer: 0,
        },
        // sccp-list s
        7816966094999 => Row {
            which: SCCP_LIST,
            letters: 0x73,
            longer: 0,
        },
        // busy nn
        564286 => Row {
            which: BUSY,
            letters: 0x6e6e,
            longer: 0,
        },
        // totals
        334410936 => Row {
            which: TOTALS,
            letters: 0,
            longer: 0,
        },
        // total bv
        7413944 => Row {
            which: TOTAL,
            letters: 0x7662,
            longer: 0,
        },
        // rebuild
        2140080254 => Row {
            which: REBUILD,
            letters: 0,
            longer: 0,
        },
        // tick clv
        244096 => Row {
            which: TICK,
            letters: 0x766c63,
            longer: 0,
        },
        // plan nnp
        308464 => Row {
            which: PLAN,
            letters: 0x706e6e,
            longer: 0,
        },
        // check nnq
        6831219 => Row {
            which: CHECK,
            letters: 0x716e6e,
            longer: 0,
        },
        _ => Row {
            which: BAD,
            letters: 0,
            longer: 0,
        },
    }
}

// The row that a line's first word has, by the table; where no form has that
// word, the row's number is 255.
pub fn form_of(word: &[u8]) -> Row
    ensures { result ≡ row_in forms 0 (key_of word.now) }
{
    row_of(key(word))
}
