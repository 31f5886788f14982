// Parts and boards, and the rules behind refusals 3 to 9 and 17: the reader of board files uses them one by one, and
// `check` all together on a board handed in (15).
#![tactic(auto)]

ghost use Rattle.std.specs.Prelude.{◌≡◌};
ghost use Rattle.board.specs.Parts.{BlankPart, EmptyBoard, TakesParts};
ghost use Rattle.board.specs.Rules.{name_fine, counts_fine, ends_fit, part_fine, row_after};
ghost use Rattle.board.specs.Rules.{NameLimit, Checks};
ghost use Rattle.board.specs.Same.{SameBoards};

use kinds::Kind;
use windings::WoundSoFar;

// The rule book's limits on a board's counts.
pub const LEAST_TERMINALS: u8 = 2;

pub const MOST_TERMINALS: u8 = 64;

pub const MOST_RELAYS: u8 = 32;

pub const MOST_BUTTONS: u8 = 32;

pub const MOST_PARTS: usize = 256;

// A part joins the terminals a and b; what a mark has there means nothing.
#[derive(Clone, Copy, Debug)]
pub struct Part {
    pub a: u8,
    pub b: u8,
    pub kind: Kind,
}

// Parts are compared by their kind and the fields that the table gives them.
impl PartialEq for Part {
    ghost use Rattle.std.specs.Cmp.{partial_equiv_from_equiv};
    ghost use Rattle.board.specs.Same.{same_part, same_part_equiv};

    ghost eq = { same_part };

    ghost laws = { partial_equiv_from_equiv same_part_equiv };

    #[tactic(auto, unfolding(crate::specs::Same::same_part))]
    fn eq(&self, other: &Part) -> bool {
        self.kind.number() == other.kind.number()
            && self.kind.fields(self.a, self.b) == other.kind.fields(other.a, other.b)
    }
}

impl Eq for Part {
    ghost use Rattle.board.specs.Same.{same_part_equiv};

    ghost laws = { same_part_equiv };
}

// T, R, B and C.
#[derive(Clone, Copy, Debug, PartialEq, Eq)]
pub struct Counts {
    pub terminals: u8,
    pub relays: u8,
    pub buttons: u8,
    pub parts: usize,
}

// A board: its counts, its parts in the first C places, and the set of relays that they mark, which start drawn.
#[derive(Clone, Copy)]
pub struct Board {
    pub counts: Counts,
    pub parts: [Part; MOST_PARTS],
    pub start: u64,
}

impl Board {
    // Its first C parts; a count beyond the array takes them all.
    pub fn parts(&self) -> &[Part]
        ensures { TakesParts self.now result.now }
    {
        &self.parts[..self.counts.parts.min(MOST_PARTS)]
    }
}

// What a name carried by a kind of this number must be below: B for a button, R for a relay.
pub fn limit(counts: Counts, kind: u32) -> u8
    ensures { NameLimit counts kind result }
{
    if kind == kinds::BUTTON_KIND {
        counts.buttons
    } else {
        counts.relays
    }
}

// What fills the places past C of a board that was read.
pub fn blank() -> Part
    ensures { BlankPart result }
{
    Part {
        a: 0,
        b: 0,
        kind: Kind::Wire,
    }
}

// The empty board: T 2, else 0.
pub fn empty() -> Board
    ensures { EmptyBoard result }
{
    Board {
        counts: Counts {
            terminals: LEAST_TERMINALS,
            relays: 0,
            buttons: 0,
            parts: 0,
        },
        parts: [blank(); MOST_PARTS],
        start: 0,
    }
}

// Whether a kind's relay or button is there (7).
#[tactic(auto, unfolding(crate::specs::Rules::name_fine))]
fn names_one(counts: Counts, kind: Kind) -> bool
    ensures { result ≡ name_fine counts kind }
{
    let number = kind.number();
    number == kinds::WIRE_KIND || kind.name() < limit(counts, number)
}

// Whether every count is in its range (3).
#[tactic(auto, unfolding(crate::specs::Rules::counts_fine, crate::specs::Rules::in_range))]
fn counts_fine(counts: Counts) -> bool
    ensures { result ≡ counts_fine counts }
{
    (LEAST_TERMINALS..=MOST_TERMINALS).contains(&counts.terminals)
        && counts.relays <= MOST_RELAYS
        && counts.buttons <= MOST_BUTTONS
        && counts.parts <= MOST_PARTS
}

// Whether the ends of a part break none of 5 and 6; a mark has no ends.
#[tactic(auto, unfolding(crate::specs::Rules::ends_fit))]
fn ends_fit(counts: Counts, part: Part) -> bool
    ensures { result ≡ ends_fit counts part }
{
    part.kind.number() == kinds::MARK_KIND
        || part.a < counts.terminals && part.b < counts.terminals && part.a != part.b
}

// Whether a part breaks none of 5 to 8 and 17 after parts that gave these windings and marks.
#[tactic(auto, unfolding(crate::specs::Rules::part_fine, crate::specs::Rules::part_fits))]
fn part_fine(counts: Counts, windings: WoundSoFar, part: Part) -> bool
    ensures { result ≡ part_fine counts windings part }
{
    ends_fit(counts, part)
        && names_one(counts, part.kind)
        && windings.free(part.kind)
        && windings.unmarked(part.kind)
}

// The windings and marks after parts that come after parts that gave these, if each breaks none of 5 to 8 and 17.
fn row_after(parts: &[Part], counts: Counts, windings: WoundSoFar) -> Option<WoundSoFar>
    ensures { result ≡ row_after counts windings parts.now }
{
    let mut after = windings;
    for part in parts {
        if !part_fine(counts, after, *part) {
            return None;
        }
        after = after.with(part.kind);
    }
    Some(after)
}

// Whether a board breaks none of the rules behind refusals 3 to 9 and 17, and carries the start that its marks give;
// one that does not is refused by 15.
pub fn check(board: Board) -> bool
    ensures { Checks board result }
{
    let counts = board.counts;
    if !counts_fine(counts) {
        return false;
    }
    let Some(windings) = row_after(board.parts(), counts, WoundSoFar::none()) else {
        return false;
    };
    windings.complete(counts.relays) && board.start == windings.marked
}

// Whether two boards are the same: by their counts and first C parts.
#[tactic(auto, unfolding(crate::specs::Same::same_board, crate::specs::Same::same_counts))]
pub fn same(x: Board, y: Board) -> bool
    ensures { SameBoards x y result }
{
    x.counts == y.counts && x.parts() == y.parts()
}
