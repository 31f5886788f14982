// A run of a board over a lent log: the relays are looked at from 0 up, the first that can move is moved, and so on
// until all rest, one is in conflict, a state is met again, or a move finds the log full.
#![tactic(auto)]

ghost use Rattle.std.specs.Prelude.{◌≡◌, []};
ghost use Rattle.refusals.specs.Refusals.{number_of};
ghost use Rattle.refusals.specs.Outcomes.{told};
ghost use Rattle.runs.specs.Running.{runnable, unrun, told_ran, Runs};

use board::Board;
use kept::Kept;
use refusals::{No, Refusal, unless};

mod back;
mod course;

// The longest log that a run takes.
pub const LONGEST_LOG: usize = 65_536;

// The relay of an idle, a buzzing or a refused run: none stopped it.
pub const NO_RELAY: u8 = 255;

// What the log byte of a draw has besides the relay number.
const DRAW_MARK: u8 = 128;

// The longest log for which few notches will do.
const SHORT_LOG: usize = 4_096;

// Words of notches for a log that is no longer. They have 26,111 places and, where there are many, 799,999: primes, and
// near no power of two, so that few states of one run share a place.
const FEW_WORDS: usize = 408;

// Words of notches for a longer one.
const MANY_WORDS: usize = 12_500;

// How a run ends.
#[derive(Clone, Copy, Debug, PartialEq, Eq)]
pub enum Ending {
    Idle,
    Spent,
    Conflict,
    Buzz,
}

// The answer to a run: its word or the refusal, the moves made, the state with the kept sets, the relay that stopped
// it, and, where it buzzes, the moves made up to the earlier state and the moves between.
#[derive(Clone, Copy)]
pub struct Ran {
    pub word: Result<Ending, Refusal>,
    pub moves: usize,
    pub kept: Kept,
    pub relay: u8,
    pub earlier: usize,
    pub between: usize,
}

// What stands against a run over this log: 15, 14, 18 or 13, or nothing.
fn runnable(board: Board, kept: Kept, log: &[u8]) -> Result<(), Refusal>
    ensures { told result ≡ runnable board kept log.now }
{
    kept::usable(board, kept)?;
    unless(log.len() <= LONGEST_LOG, No::LogTooLong)?;
    Ok(())
}

// A refused run: the state and the sets as given, no moves, no relay, no meeting.
fn refuse(kept: Kept, refusal: Refusal) -> Ran
    ensures { told_ran result [] ≡ unrun (number_of refusal.no) refusal.place kept [] }
{
    Ran {
        word: Err(refusal),
        moves: 0,
        kept,
        relay: NO_RELAY,
        earlier: 0,
        between: 0,
    }
}

// Runs a board from this state, and logs each move.
pub fn run(board: Board, kept: Kept, log: &mut [u8]) -> Ran
    ensures { Runs board kept log.old result log.new }
{
    match runnable(board, kept, log) {
        Err(refusal) => refuse(kept, refusal),
        Ok(()) if log.len() <= SHORT_LOG => course::follow::<FEW_WORDS>(board, kept, log),
        Ok(()) => course::follow::<MANY_WORDS>(board, kept, log),
    }
}
