// One event of a session: the push or release, the run after it, and the line that tells of it. The first run is event
// 0, which pushes and releases nothing.
#![tactic(auto)]

ghost use Rattle.std.specs.Prelude.{◌≡◌};
ghost use Rattle.presses.specs.Presses.{told_pressed};
ghost use Rattle.lines.specs.Lines.{told_came};
ghost use Rattle.events.specs.Events.{shown, pressing, pressed_line, told_shown, RunLine, EventLine};

use board::Board;
use kept::Kept;
use lines::{Line, Refused};
use presses::Pressed;
use refusals::Refusal;
use runs::Ending;

// The length of the log of a session's runs: the moves that each may make.
const LOG_LENGTH: usize = 4_096;

// An event: a button is pushed or released.
#[derive(Clone, Copy, Debug, PartialEq, Eq)]
pub enum Event {
    Push(u32),
    Release(u32),
}

// The number of an event: 2 x button + 1 pushes, 2 x button releases.
impl From<u32> for Event {
    ghost use Rattle.events.specs.Events.{event_of};

    ghost from_gives = { λ number event. event ≡ event_of number };

    fn from(number: u32) -> Event {
        let button = number / 2;
        if number % 2 == 1 {
            Event::Push(button)
        } else {
            Event::Release(button)
        }
    }
}

// A line, and the state with the kept sets after what it tells.
#[derive(Clone, Copy)]
pub struct Shown {
    pub line: Line,
    pub kept: Kept,
}

// The line that tells of an event: what its run or its press came to, and the drawn relays of the state after it.
fn tell(event: usize, word: Result<Ending, Refused>, moves: usize, kept: Kept) -> Shown
    ensures { told_shown result ≡ shown event (told_came word) moves kept }
{
    Shown {
        line: Line::Event {
            event,
            word,
            moves,
            drawn: kept.state.drawn,
        },
        kept,
    }
}

// Runs the board from a state, and tells of it as the event of this number.
#[tactic(auto, unfolding(crate::specs::Events::ran_line))]
pub fn run_line(board: Board, number: usize, kept: Kept) -> Shown
    ensures { RunLine board number kept result }
{
    let mut log = [0; LOG_LENGTH];
    let ran = runs::run(board, kept, &mut log);
    tell(number, ran.word.map_err(Refused::from), ran.moves, ran.kept)
}

// Pushes or releases the button of an event.
#[tactic(auto, unfolding(crate::specs::Events::pressing))]
fn press(board: Board, kept: Kept, event: Event) -> Pressed
    ensures { told_pressed result ≡ pressing board kept event }
{
    match event {
        Event::Push(button) => presses::push(board, kept, button),
        Event::Release(button) => presses::release(board, kept, button),
    }
}

// Tells of a push or release, as the event of this number: the run after it, or its refusal.
#[tactic(auto, unfolding(crate::specs::Events::pressed_line))]
fn pressed_line(board: Board, number: usize, pressed: Pressed) -> Shown
    ensures { told_shown result ≡ pressed_line board number (told_pressed pressed) }
{
    let kept = pressed.kept;
    match pressed.answer {
        Ok(()) => run_line(board, number, kept),
        Err(refusal) => tell(number, Err(refusal.into()), 0, kept),
    }
}

// Makes an event in a state, and tells of it under its number.
#[tactic(auto, unfolding(crate::specs::Events::event_line))]
pub fn event_line(board: Board, number: usize, kept: Kept, event: Event) -> Shown
    ensures { EventLine board number kept event result }
{
    pressed_line(board, number, press(board, kept, event))
}
