// Single moves. What is asked is the relay.
use crate::asked::Asked;
use crate::print_left;
use cases::refusal::ByCall;
use moves::Move;
use std::io;
use std::io::Write;

// Moves a relay as is asked, and prints what the move came to and what it left.
pub fn answer_move<W: Write>(out: &mut W, asked: Asked) -> io::Result<()> {
    let moved = moves::move_relay(asked.board, asked.kept, asked.number);
    match moved.answer {
        Ok(Move::Drew) => write!(out, "moved drew")?,
        Ok(Move::Dropped) => write!(out, "moved dropped")?,
        Ok(Move::Rests) => write!(out, "moved rests")?,
        Ok(Move::Conflict) => write!(out, "moved conflict")?,
        Err(refused) => write!(out, "moved refused {}", ByCall(refused))?,
    }
    print_left::print_state(out, moved.kept.state)?;
    print_left::print_sets(out, asked, moved.kept)
}
