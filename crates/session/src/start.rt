// How a session starts: with a board and the place past its allowance, or with a refusal.
ghost use Rattle.std.specs.Prelude.{◌≡◌};
ghost use Rattle.refusals.specs.Outcomes.{told};
ghost use Rattle.board_reader.specs.Editions.{current_edition};
ghost use Rattle.session.specs.Sessions.{head_at};
ghost use Rattle.session.specs.Carried.{begun_from, told_session};

use crate::{Ahead, Session, Stage};
use board::Board;
use kept::Kept;
use refusals::{Found, Refusal};

// What stands before the events: the board and the allowance, any number, which is ignored.
#[tactic(auto, unfolding(crate::specs::Sessions::head_at, crate::specs::Sessions::past_allowance))]
pub fn head(s: &[u8]) -> Result<Found<Board>, Refusal>
    ensures { told result ≡ head_at current_edition s.now }
{
    let read = board_reader::read(s);
    let at = read.answer?;
    let allowance = number::read_number(s, at)?;
    Ok(Found {
        value: read.board,
        next: allowance.next,
    })
}

// The session of a head, in a fresh state of its board; that of a bad file tells the refusal.
#[tactic(auto, unfolding(crate::specs::Carried::begun_from))]
pub fn begin_with(head: Result<Found<Board>, Refusal>) -> Session
    ensures { told_session result ≡ begun_from (told head) }
{
    let (board, place, stage) = match head {
        Ok(head) => (head.value, head.next, Stage::First),
        Err(refusal) => (board::empty(), 0, Stage::Refused(refusal.into())),
    };
    Session {
        board,
        ahead: Ahead {
            kept: Kept::fresh(board),
            event: 0,
            place,
            stage,
        },
    }
}
