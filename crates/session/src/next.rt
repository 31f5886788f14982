// The line that comes next in a session, and what is ahead after it.
ghost use Rattle.std.specs.Prelude.{◌≡◌, Some};
ghost use Rattle.board_reader.specs.Editions.{current_edition};
ghost use Rattle.events.specs.Events.{told_shown};
ghost use Rattle.session.specs.Carried.{following, goes_on, closes, next_event, next_of};
ghost use Rattle.session.specs.Carried.{told_ahead, told_next};

use crate::{Ahead, Stage, event};
use board::Board;
use board_reader::LONGEST_INPUT;
use events::Shown;
use lines::{Line, Refused};

// The next line and what is ahead after it.
#[derive(Clone, Copy)]
pub struct Next {
    pub line: Line,
    pub ahead: Ahead,
}

// The number of the event after this one. No session comes past the longest input: each event takes a byte of it.
#[tactic(auto, unfolding(crate::specs::Carried::following))]
fn following(event: usize) -> usize
    ensures { result ≡ following event }
{
    if event <= LONGEST_INPUT {
        event + 1
    } else {
        event
    }
}

// The event of this number tells what is shown, and the session goes on with the events from a place on.
fn go_on(event: usize, shown: Shown, place: usize) -> Next
    ensures { told_next (told_ahead result.ahead) (Some result) ≡ goes_on event (told_shown shown) place }
{
    Next {
        line: shown.line,
        ahead: Ahead {
            kept: shown.kept,
            event: following(event),
            place,
            stage: Stage::Events,
        },
    }
}

// The session tells of a refusal, and is over.
fn close(ahead: Ahead, refused: Refused) -> Next
    ensures { told_next (told_ahead ahead) (Some result) ≡ closes (told_ahead ahead) refused.number refused.place }
{
    Next {
        line: Line::Closing(refused),
        ahead: Ahead {
            stage: Stage::Over,
            ..ahead
        },
    }
}

// What comes of the event at the session's place in the input, if the input goes on there.
#[tactic(auto, unfolding(crate::specs::Carried::next_event, crate::specs::Carried::event_comes))]
fn next_event(board: Board, ahead: Ahead, s: &[u8]) -> Option<Next>
    ensures { told_next (told_ahead ahead) result ≡ next_event current_edition board (told_ahead ahead) s.now }
{
    if s.len() <= ahead.place {
        return None;
    }
    Some(
        match event::event_at(board.counts.buttons, s, ahead.place) {
            Ok(event) => {
                let shown = events::event_line(board, ahead.event, ahead.kept, event.value);
                go_on(ahead.event, shown, event.next)
            }
            Err(refusal) => close(ahead, refusal.into()),
        },
    )
}

// The next line of the session, if one comes.
#[tactic(auto, unfolding(crate::specs::Carried::next_of, crate::specs::Carried::next_at))]
pub fn advance(board: Board, ahead: Ahead, s: &[u8]) -> Option<Next>
    ensures { told_next (told_ahead ahead) result ≡ next_of current_edition board (told_ahead ahead) s.now }
{
    match ahead.stage {
        Stage::First => {
            let shown = events::run_line(board, ahead.event, ahead.kept);
            Some(go_on(ahead.event, shown, ahead.place))
        }
        Stage::Events => next_event(board, ahead, s),
        Stage::Refused(refused) => Some(close(ahead, refused)),
        Stage::Over => None,
    }
}
