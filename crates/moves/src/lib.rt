// Moves of a relay: what it does by what its windings are, live or dead, what it does in a state, and the call that
// moves a named relay.
#![tactic(auto)]

ghost use Rattle.std.specs.Prelude.{◌≡◌};
ghost use Rattle.refusals.specs.Outcomes.{told};
ghost use Rattle.moves.specs.Steps.{told_move, regular_move, steel_move, step_by, StepsRelay};
ghost use Rattle.moves.specs.Steps.{AfterMove};
ghost use Rattle.moves.specs.Moving.{movable, Moves};

use board::Board;
use feed::Feed;
use judge::Windings;
use kept::{Change, Kept};
use refusals::{No, Refusal, unless};

// What a move of a relay comes to.
#[derive(Clone, Copy, Debug, PartialEq, Eq)]
pub enum Move {
    Drew,
    Dropped,
    Rests,
    Conflict,
}

// The answer to a single move: what it came to or the refusal, with the state and the kept sets that it leaves.
#[derive(Clone, Copy)]
pub struct Moved {
    pub kept: Kept,
    pub answer: Result<Move, Refusal>,
}

// What a regular relay does, with its winding live or dead.
#[tactic(auto, unfolding(crate::specs::Steps::regular_move))]
fn regular(drawn: bool, live: bool) -> Move
    ensures { told_move result ≡ regular_move drawn live }
{
    match (live, drawn) {
        (true, false) => Move::Drew,
        (false, true) => Move::Dropped,
        (true, true) | (false, false) => Move::Rests,
    }
}

// What a steel relay does, with each of its two windings live or dead.
#[tactic(auto, unfolding(crate::specs::Steps::steel_move))]
fn steel(drawn: bool, drawing: bool, dropping: bool) -> Move
    ensures { told_move result ≡ steel_move drawn drawing dropping }
{
    match (drawing, dropping, drawn) {
        (true, true, _) => Move::Conflict,
        (true, false, false) => Move::Drew,
        (false, true, true) => Move::Dropped,
        (true, false, true) | (false, true, false) | (false, false, _) => Move::Rests,
    }
}

// What a relay does, drawn or not, by its windings: each is live or dead by the served terminals and those linked to
// each terminal. What the board lacks rests.
pub fn step(feed: &Feed, windings: Option<Windings>, drawn: bool) -> Move
    ensures { StepsRelay feed.now windings drawn result }
{
    match windings {
        Some(Windings::Regular(winding)) => regular(drawn, feed.is_live(winding)),
        Some(Windings::Steel { drawing, dropping }) => {
            let live = feed.is_live(drawing);
            steel(drawn, live, feed.is_live(dropping))
        }
        None => Move::Rests,
    }
}

// What a relay does in this state, by the kept sets.
fn step_by(board: Board, kept: Kept, relay: u32) -> Move
    ensures { told_move result ≡ step_by kept.sets board kept.state relay }
{
    let feed = feed::feed_by(kept.sets, board.counts.terminals);
    let windings = judge::find_windings(board, relay);
    let drawn = kept.state.is_drawn(relay);
    step(&feed, windings, drawn)
}

// The state and the kept sets after a relay came to this: drawn or dropped, with the sets kept up with it, or as they
// were.
pub fn after(board: Board, kept: Kept, relay: u32, motion: Move) -> Kept
    ensures { AfterMove board kept relay motion result }
{
    let state = kept.state;
    match motion {
        Move::Drew => kept.changed(board, Change::Relay(relay), state.draw(relay)),
        Move::Dropped => kept.changed(board, Change::Relay(relay), state.drop(relay)),
        Move::Rests | Move::Conflict => kept,
    }
}

// What stands against moving a relay: 15, 14, 18 or 11, or nothing.
fn movable(board: Board, kept: Kept, relay: u32) -> Result<(), Refusal>
    ensures { told result ≡ movable board kept relay }
{
    let there = relay < u32::from(board.counts.relays);
    kept::usable(board, kept)?;
    unless(there, No::NoSuchWinding)?;
    Ok(())
}

// Moves a named relay, if it can move: refusals 15, 14, 18 and 11.
pub fn move_relay(board: Board, kept: Kept, relay: u32) -> Moved
    ensures { Moves board kept relay result }
{
    match movable(board, kept, relay) {
        Ok(()) => {
            let motion = step_by(board, kept, relay);
            Moved {
                kept: after(board, kept, relay, motion),
                answer: Ok(motion),
            }
        }
        Err(refusal) => Moved {
            kept,
            answer: Err(refusal),
        },
    }
}
