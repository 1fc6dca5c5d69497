// What every crate shares: the choice by a test, an answer or a refusal, the faults in their order,
// a stretch of a lent slice, and the answer of all that fill a lent buffer.
#![tactic(auto)]

ghost use Rattle.std.specs.Prelude.{◌≡◌, ℕ};
ghost use Rattle.octets.specs.Told.{refusal_number, refusal_place};

// Why nothing was accepted: the refusals of documents 01 and 02, in the order of their numbers. Those
// that a reader gives from its third on hold the octet that they are about.
#[derive(Clone, Copy, Debug, PartialEq, Eq)]
pub enum Refusal {
    TooShort,
    TooLong,
    UnknownType(usize),
    CutOff(usize),
    BadPointer(usize),
    PastEnd(usize),
    OpenRun(usize),
    SharedOctet(usize),
    NoCircuit,
    Misfit,
    BadRun,
    TooFar,
    NoRoom,
    BadContents,
    NotFound,
    WrongTables,
    NotForHub,
    PastLastCircuit,
    NotTheirs,
    IllegalRow,
    Taken,
    OnlyHelped,
    NoBook,
    NoPlan,
    NoVelocity,
}

// What a refusal is told by: its number in documents 01 and 02, and the octet that it is about.
pub trait Numbered: Copy {
    ghost number_in: { Self → ℕ };

    ghost place_in: { Self → ℕ };

    // The number of the refusal.
    fn number(self) -> u8
        ensures { result ≡ number_in self };

    // The octet that it is about, 0 where it is about none.
    fn place(self) -> usize
        ensures { result ≡ place_in self };
}

impl Numbered for Refusal {
    ghost number_in = { refusal_number };

    ghost place_in = { refusal_place };

    fn number(self) -> u8 {
        match self {
            Refusal::TooShort => 1,
            Refusal::TooLong => 2,
            Refusal::UnknownType(_) => 3,
            Refusal::CutOff(_) => 4,
            Refusal::BadPointer(_) => 5,
            Refusal::PastEnd(_) => 6,
            Refusal::OpenRun(_) => 7,
            Refusal::SharedOctet(_) => 8,
            Refusal::NoCircuit => 9,
            Refusal::Misfit => 10,
            Refusal::BadRun => 11,
            Refusal::TooFar => 12,
            Refusal::NoRoom => 13,
            Refusal::BadContents => 14,
            Refusal::NotFound => 15,
            Refusal::WrongTables => 16,
            Refusal::NotForHub => 17,
            Refusal::PastLastCircuit => 18,
            Refusal::NotTheirs => 19,
            Refusal::IllegalRow => 20,
            Refusal::Taken => 21,
            Refusal::OnlyHelped => 22,
            Refusal::NoBook => 24,
            Refusal::NoPlan => 25,
            Refusal::NoVelocity => 26,
        }
    }

    fn place(self) -> usize {
        match self {
            Refusal::UnknownType(at)
            | Refusal::CutOff(at)
            | Refusal::BadPointer(at)
            | Refusal::PastEnd(at)
            | Refusal::OpenRun(at)
            | Refusal::SharedOctet(at) => at,
            _ => 0,
        }
    }
}

// A number and an octet alone, as whoever holds no refusal of these documents has them.
impl Numbered for (u8, usize) {
    ghost number_in = { λ x. x.0 };

    ghost place_in = { λ x. x.1 };

    fn number(self) -> u8 {
        self.0
    }

    fn place(self) -> usize {
        self.1
    }
}
