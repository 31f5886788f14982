// What a case hands in: three numbers of three bytes, highest first, the drawn relays and the pushed buttons, each as a
// set (the sum of 2 to each), and what is asked; then a board (`cases::handed::board`).
use board::Board;
use cases::handed;
use kept::Kept;
use state::State;

// A board, a state with its kept sets, and what is asked.
#[derive(Clone, Copy)]
pub struct Asked {
    pub board: Board,
    pub kept: Kept,
    pub number: u32,
}

impl Asked {
    // What a case of these bytes hands in, with the kept sets before its colon.
    pub fn of(sets: &[u8], bytes: &[u8]) -> Self {
        let board = handed::board(bytes.get(9..).unwrap_or(b""));
        let state = State {
            drawn: u64::from(handed::number_at(bytes, 0)),
            pushed: u64::from(handed::number_at(bytes, 3)),
        };
        Asked {
            board,
            kept: handed::kept(board, state, sets),
            number: handed::number_at(bytes, 6),
        }
    }
}
