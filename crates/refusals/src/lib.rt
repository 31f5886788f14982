// The numbers for no, which every call answers with, what a refusal and a thing that was read are, and a line of a
// call: a test that must hold, and what is said where it does not.
#![tactic(auto)]

ghost use Rattle.std.specs.Prelude.{◌≡◌};
ghost use Rattle.refusals.specs.Order.{AsksLine};

// The rule book's numbers for no, one for each line of its table.
#[derive(Clone, Copy, Debug, PartialEq, Eq)]
pub enum No {
    InputEnds = 1,
    BadForm = 2,
    OutOfRange = 3,
    NoSuchKind = 4,
    NoSuchTerminal = 5,
    EndsEqual = 6,
    NoSuchName = 7,
    WindingTaken = 8,
    WindingLacking = 9,
    InputTooLong = 10,
    NoSuchWinding = 11,
    AlreadySo = 12,
    LogTooLong = 13,
    StateBeyondBoard = 14,
    BrokenBoard = 15,
    BufferTooShort = 16,
    MarkedTwice = 17,
    ForeignSets = 18,
    TerminalBeyond = 19,
    TooManyButtons = 20,
}

// A refusal: its number for no and the place it speaks of.
#[derive(Clone, Copy, Debug, PartialEq, Eq)]
pub struct Refusal {
    pub no: No,
    pub place: usize,
}

// What was read, and the place just after it.
#[derive(Clone, Copy, Debug, PartialEq, Eq)]
pub struct Found<T> {
    pub value: T,
    pub next: usize,
}

impl From<No> for u32 {
    ghost use Rattle.refusals.specs.Refusals.{number_of};

    ghost from_gives = { λ no n. n ≡ number_of no };

    fn from(no: No) -> u32 {
        no as u32
    }
}

// A call's place is 0.
impl From<No> for Refusal {
    ghost from_gives = { λ no r. r ≡ record { no = no; place = 0 } };

    fn from(no: No) -> Refusal {
        Refusal { no, place: 0 }
    }
}

// A line of a call: nothing where its test holds, else what is said against the call.
pub fn unless<E: Drop>(holds: bool, no: E) -> Result<(), E>
    ensures { AsksLine holds no result }
{
    if holds { Ok(()) } else { Err(no) }
}
