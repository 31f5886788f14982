// Which parts of a board conduct in a state, and which terminals they join: the sets of neighbours, worked out for all
// terminals, or anew between some of them.
#![tactic(auto)]

ghost use Rattle.std.specs.Prelude.{◌≡◌};
ghost use Rattle.neighbours.specs.Conduction.{conducts, conducts_bare, winds, Conducts};
ghost use Rattle.neighbours.specs.Neighbours.{Neighbours, Renews};
ghost use Rattle.neighbours.specs.Rows.{among_by, gathered};

use board::{Board, Part};
use kinds::Kind;
use row::Row;
use state::State;

mod row;

// The sets of neighbours: for each of 64 terminals the set of terminals that a conducting part joins to it, and the set
// of those that a conducting part joins to it which is no winding.
#[derive(Clone, Copy, Debug, PartialEq, Eq)]
pub struct Sets {
    pub near: [u64; 64],
    pub bare: [u64; 64],
}

// The places of a row of sets.
pub const PLACES: usize = 64;

// The set of all 64 terminals.
pub const EVERYWHERE: u64 = 0xffff_ffff_ffff_ffff;

// Whether a part of this kind conducts in this state: docs/RULES.md, "Parts of a board", the table's last column, line
// by line. `true` is its "always", `false` its "never", and a relay is dropped while it is not drawn. `u32::from` hands
// the part's number on as it is, and `_` is a relay that is not asked.
pub fn conducts(kind: Kind, state: State) -> bool
    ensures { Conducts kind state result }
{
    match kind {
        Kind::Wire => true,
        Kind::Upper(relay) => state.is_drawn(u32::from(relay)),
        Kind::Lower(relay) => !state.is_drawn(u32::from(relay)),
        Kind::Button(button) => state.is_pushed(u32::from(button)),
        Kind::Regular(_) => true,
        Kind::Drawing(_) => true,
        Kind::Dropping(_) => true,
        Kind::Mark(_) => false,
    }
}

// Whether a part of this kind is a winding.
fn winds(kind: Kind) -> bool
    ensures { result ≡ winds kind }
{
    matches!(
        kind,
        Kind::Regular(_) | Kind::Drawing(_) | Kind::Dropping(_)
    )
}

// Joins each pair of these terminals besides that a part joins, part by part from the last, in both rows: in the one by
// all parts that conduct in this state, in the other by those of them that are no winding. Through these a winding is
// shunted (docs/RULES.md, "Shunted").
fn gather(near: &mut Row, bare: &mut Row, at: u64, parts: &[Part], state: State)
    ensures near_gathered { near.new.sets ≡ gathered (among_by at (conducts state)) parts.now near.old.sets }
    ensures bare_gathered { bare.new.sets ≡ gathered (among_by at (conducts_bare state)) parts.now bare.old.sets }
{
    for &part in parts.iter().rev() {
        if row::is_among(part, at) && conducts(part.kind, state) {
            near.bridge(part);
            if !winds(part.kind) {
                bare.bridge(part);
            }
        }
    }
}

// The sets of a board in a state.
pub fn neighbours(board: Board, state: State) -> Sets
    ensures { Neighbours board state result }
{
    let mut near = Row { sets: [0; PLACES] };
    let mut bare = Row { sets: [0; PLACES] };
    gather(&mut near, &mut bare, EVERYWHERE, board.parts(), state);
    Sets {
        near: near.sets,
        bare: bare.sets,
    }
}

// The sets, with each pair of these terminals joined exactly if a board in a state joins it, and every other as it is.
pub fn renew(sets: Sets, at: u64, board: Board, state: State) -> Sets
    ensures { Renews sets at board state result }
{
    let Sets { near, bare } = sets;
    let mut near = Row { sets: near };
    let mut bare = Row { sets: bare };
    near.clear(at);
    bare.clear(at);
    gather(&mut near, &mut bare, at, board.parts(), state);
    Sets {
        near: near.sets,
        bare: bare.sets,
    }
}
