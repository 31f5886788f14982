// A session: a board, the allowance, which is read and then ignored, and events. `begin` reads what stands before the
// events, each `next_line` hands out one line of the session into a lent buffer, and each `next_lines` as many as fit.
#![tactic(auto)]

ghost use Rattle.session.specs.Carried.{Begins};
ghost use Rattle.session.specs.HandingOut.{NextLine};
ghost use Rattle.session.specs.Filling.{NextLines};

use board::Board;
use kept::Kept;
use lines::Refused;
use refusals::Refusal;

mod event;
mod fill;
mod next;
mod start;

// What the next line is: that of the first run, that of an event, that of a refusal, or none.
#[derive(Clone, Copy)]
pub enum Stage {
    First,
    Events,
    Refused(Refused),
    Over,
}

// What changes from line to line: the state with the kept sets, the number of the next event, its place in the input,
// and the stage.
#[derive(Clone, Copy)]
pub struct Ahead {
    pub kept: Kept,
    pub event: usize,
    pub place: usize,
    pub stage: Stage,
}

// What a session carries from line to line: its board, and what is ahead.
#[derive(Clone, Copy)]
pub struct Session {
    pub board: Board,
    pub ahead: Ahead,
}

// The answer to a call for the next line or lines, so many bytes written, none where no line comes any more, or the
// refusal; with the session to carry on.
#[derive(Clone, Copy)]
pub struct Handed {
    pub session: Session,
    pub answer: Result<Option<usize>, Refusal>,
}

// Reads the board and the allowance, and begins the session in a fresh state of that board.
#[tactic(auto, unfolding(crate::specs::Carried::beginning))]
pub fn begin(s: &[u8]) -> Session
    ensures { Begins s.now result }
{
    start::begin_with(start::head(s))
}

// Hands out the session's next line into a buffer: 16 if the longest line has no room there.
#[tactic(auto, unfolding(crate::specs::HandingOut::next_line))]
pub fn next_line(session: Session, s: &[u8], out: &mut [u8]) -> Handed
    ensures { NextLine session s.now out.old result out.new }
{
    match fill::hand_line(session.board, session.ahead, s, out) {
        Ok(Some(line)) => Handed {
            session: Session {
                board: session.board,
                ahead: line.ahead,
            },
            answer: Ok(Some(line.length)),
        },
        Ok(None) => Handed {
            session,
            answer: Ok(None),
        },
        Err(refusal) => Handed {
            session,
            answer: Err(refusal),
        },
    }
}

// Hands out the session's next lines into a buffer, one after the other, as many as fit: a line comes as long as the
// longest line has room in what is left. 16 if it has no room in the whole buffer.
pub fn next_lines(session: Session, s: &[u8], out: &mut [u8]) -> Handed
    ensures { NextLines session s.now out.old result out.new }
{
    let board = session.board;
    let mut ahead = session.ahead;
    let mut used = 0;
    let last = loop {
        match fill::hand_line(board, ahead, s, &mut out[used..]) {
            Ok(Some(line)) => {
                ahead = line.ahead;
                used += line.length;
            }
            Ok(None) => break Ok(None),
            Err(refusal) => break Err(refusal),
        }
    };
    Handed {
        session: Session { board, ahead },
        answer: fill::sum_up(used, last),
    }
}
