// Buttons pushed and released. What is asked is the button.
use crate::asked::Asked;
use crate::print_left;
use board::Board;
use cases::refusal::ByCall;
use kept::Kept;
use presses::Pressed;
use std::io;
use std::io::Write;

// Pushes or releases a button as is asked, by one of the calls, and prints what came of it and what it left.
pub fn answer_press<W: Write, F>(out: &mut W, asked: Asked, press: F) -> io::Result<()>
where
    F: FnOnce(Board, Kept, u32) -> Pressed,
    requires { F.IsAlwaysCallable press }
{
    let pressed = press(asked.board, asked.kept, asked.number);
    match pressed.answer {
        Ok(()) => write!(out, "pressed done")?,
        Err(refused) => write!(out, "pressed refused {}", ByCall(refused))?,
    }
    print_left::print_state(out, pressed.kept.state)?;
    print_left::print_sets(out, asked, pressed.kept)
}
