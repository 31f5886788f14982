// Reading a board file: from a slice of any length the board and the place just after it, or the number and place of
// the refusal with the empty board.
#![tactic(auto)]

ghost use Rattle.std.specs.Prelude.{◌≡◌};
ghost use Rattle.refusals.specs.Outcomes.{told};
ghost use Rattle.board_reader.specs.Editions.{current_edition};
ghost use Rattle.board_reader.specs.Reading.{answered, reading, Reads};

mod counts;
mod fields;
mod parts;

use board::Board;
use refusals::{Found, No, Refusal};
use windings::WoundSoFar;

// The longest input that is read.
pub const LONGEST_INPUT: usize = 65_536;

// The board that was read, with the place just after it; or the empty board, with the refusal.
#[derive(Clone, Copy)]
pub struct BoardRead {
    pub board: Board,
    pub answer: Result<usize, Refusal>,
}

// The board at the start of the input: 10 where the input is too long, and 9 after the last part.
fn read_board(s: &[u8]) -> Result<Found<Board>, Refusal>
    ensures { answered (told result) ≡ reading current_edition s.now }
{
    if LONGEST_INPUT < s.len() {
        return fields::refuse(No::InputTooLong, 0);
    }
    let read = counts::read_counts(s);
    let Ok(counts) = read else {
        return Err(read.unwrap_err());
    };
    let read = parts::read_parts(s, counts.next, counts.value, WoundSoFar::none());
    let Ok(row) = read else {
        return Err(read.unwrap_err());
    };
    let parts = row.value.parts;
    let windings = row.value.windings;
    if !windings.complete(counts.value.relays) {
        return fields::refuse(No::WindingLacking, row.next);
    }
    let board = Board {
        counts: counts.value,
        parts,
        start: windings.marked,
    };
    Ok(Found {
        value: board,
        next: row.next,
    })
}

// Reads the board at the start of the input; the bytes after it are not judged.
#[tactic(auto, unfolding(crate::specs::Reading::answered))]
pub fn read(s: &[u8]) -> BoardRead
    ensures { Reads s.now result }
{
    let read = read_board(s);
    let Ok(found) = read else {
        return BoardRead {
            board: board::empty(),
            answer: Err(read.unwrap_err()),
        };
    };
    BoardRead {
        board: found.value,
        answer: Ok(found.next),
    }
}
