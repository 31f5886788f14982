// The sets of neighbours kept beside the state (request A5): worked out for a board and a state, renewed where a relay
// or a button changed, and whether they belong to a board and a state; and what every call on these asks first.
#![tactic(auto)]

ghost use Rattle.std.specs.Prelude.{◌≡◌};
ghost use Rattle.kept.specs.Upkeep.{contact_of, button_of, follows, with_ends, changed_ends, KeptChanged};
ghost use Rattle.kept.specs.Kept.{belongs, KeptOf, KeptFresh, Usable};

use board::{Board, Part};
use kinds::Kind;
use neighbours::Sets;
use refusals::{No, Refusal, unless};
use state::State;

// A state with the sets of neighbours beside it.
#[derive(Clone, Copy, Debug, PartialEq, Eq)]
pub struct Kept {
    pub state: State,
    pub sets: Sets,
}

// What changed in a state: a relay, which moved, or a button, which was pushed or released.
#[derive(Clone, Copy, Debug, PartialEq, Eq)]
pub enum Change {
    Relay(u32),
    Button(u32),
}

// Whether a part of this kind is a contact of this relay.
fn is_contact(kind: Kind, relay: u32) -> bool
    ensures { result ≡ contact_of relay kind }
{
    matches!(kind, Kind::Upper(ruling) | Kind::Lower(ruling) if u32::from(ruling) == relay)
}

// Whether a part of this kind is one of this button.
fn is_of_button(kind: Kind, button: u32) -> bool
    ensures { result ≡ button_of button kind }
{
    matches!(kind, Kind::Button(own) if u32::from(own) == button)
}

// Whether a part of this kind goes by what changed: a contact of that relay, a part of that button.
fn follows(kind: Kind, change: Change) -> bool
    ensures { result ≡ follows change kind }
{
    match change {
        Change::Relay(relay) => is_contact(kind, relay),
        Change::Button(button) => is_of_button(kind, button),
    }
}

// The set of terminals with the ends of a part besides, if it goes by what changed.
fn with_ends(ends: u64, part: &Part, change: Change) -> u64
    ensures { result ≡ with_ends change part.now ends }
{
    if follows(part.kind, change) {
        bits::with(bits::with(ends, u32::from(part.a)), u32::from(part.b))
    } else {
        ends
    }
}

// The ends of the parts that go by what changed.
fn changed_ends(parts: &[Part], change: Change) -> u64
    ensures { result ≡ changed_ends change parts.now }
{
    let mut ends = 0;
    for part in parts.iter().rev() {
        ends = with_ends(ends, part, change);
    }
    ends
}

// Whether the kept sets are those of the board in that state; others are refused by 18.
fn belong(board: Board, kept: Kept) -> bool
    ensures { result ≡ belongs board kept }
{
    let own = neighbours::neighbours(board, kept.state);
    kept.sets == own
}

impl Kept {
    // A state with the sets of a board beside it, worked out from both.
    pub fn of(board: Board, state: State) -> Self
        ensures { KeptOf board state result }
    {
        let sets = neighbours::neighbours(board, state);
        Kept { state, sets }
    }

    // A fresh state of a board with the sets beside it.
    pub fn fresh(board: Board) -> Self
        ensures { KeptFresh board result }
    {
        Kept::of(board, State::fresh(board))
    }

    // The next state with the sets beside it, after this change: the ends of the parts that go by what changed are
    // joined anew to each other, and every other pair stays as it is.
    pub fn changed(self, board: Board, change: Change, next: State) -> Self
        ensures { KeptChanged self board change next result }
    {
        let ends = changed_ends(board.parts(), change);
        let sets = neighbours::renew(self.sets, ends, board, next);
        Kept { state: next, sets }
    }
}

// What stands against every call on a board and a state with its kept sets, before its own lines: 15, 14, 18.
pub fn usable(board: Board, kept: Kept) -> Result<(), Refusal>
    ensures { Usable board kept result }
{
    unless(board::check(board), No::BrokenBoard)?;
    unless(kept.state.fits(board.counts), No::StateBeyondBoard)?;
    unless(belong(board, kept), No::ForeignSets)?;
    Ok(())
}
