// Pushing and releasing a button, on any board, state and kept sets handed in: refusals 15, 14, 18, 7 and 12, then the
// state's method, and the sets kept up with it.
#![tactic(auto)]

ghost use Rattle.std.specs.Prelude.{◌≡◌};
ghost use Rattle.refusals.specs.Outcomes.{told};
ghost use Rattle.refusals.specs.Order.{first_no};
ghost use Rattle.kept.specs.declared.Change.TheVariants.{Button};
ghost use Rattle.kept.specs.Kept.{left};
ghost use Rattle.kept.specs.Upkeep.{changed_to};
ghost use Rattle.presses.specs.Presses.{press_lines, told_pressed, Pushes, Releases};

use board::Board;
use kept::{Change, Kept};
use refusals::{No, Refusal, unless};
use state::State;

// The answer to a push or a release, with the state and the kept sets that it leaves.
#[derive(Clone, Copy)]
pub struct Pressed {
    pub kept: Kept,
    pub answer: Result<(), Refusal>,
}

// What stands against setting a button, which must not be so already: 15, 14, 18, 7 or 12, or nothing.
fn pressable(board: Board, kept: Kept, button: u32, settable: bool) -> Result<(), Refusal>
    ensures { told result ≡ first_no (press_lines board kept button settable) }
{
    let there = button < u32::from(board.counts.buttons);
    kept::usable(board, kept)?;
    unless(there, No::NoSuchName)?;
    unless(settable, No::AlreadySo)?;
    Ok(())
}

// Sets a button, which must not be so already: the next state, with the sets kept up with it, where nothing stands
// against it, else the state and the sets given.
fn set(board: Board, kept: Kept, button: u32, settable: bool, next: State) -> Pressed
    ensures { told_pressed result ≡ left kept (λ u. changed_to kept board (Button button) next)
        (first_no (press_lines board kept button settable)) }
{
    let answer = pressable(board, kept, button, settable);
    match answer {
        Ok(()) => Pressed {
            kept: kept.changed(board, Change::Button(button), next),
            answer,
        },
        Err(_) => Pressed { kept, answer },
    }
}

// Pushes a button.
pub fn push(board: Board, kept: Kept, button: u32) -> Pressed
    ensures { Pushes board kept button result }
{
    let state = kept.state;
    let settable = !state.is_pushed(button);
    set(board, kept, button, settable, state.push(button))
}

// Releases a button.
pub fn release(board: Board, kept: Kept, button: u32) -> Pressed
    ensures { Releases board kept button result }
{
    let state = kept.state;
    let settable = state.is_pushed(button);
    set(board, kept, button, settable, state.release(button))
}
