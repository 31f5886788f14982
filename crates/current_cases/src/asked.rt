// What a case asks, in numbers after its board: which winding, in which state with its kept sets, and what else its
// sort wants.
use board::Board;
use cases::handed;
use judge::Which;
use kept::Kept;
use state::State;

// A winding in a state with its kept sets.
#[derive(Clone, Copy)]
pub struct AskedWinding {
    pub kept: Kept,
    pub relay: u32,
    pub which: Which,
}

// The numbers that follow the board.
#[derive(Drop)]
pub struct Numbers<'c> {
    bytes: &'c [u8],
    at: usize,
}

impl<'c> Numbers<'c> {
    // Those from a place on.
    pub fn from(bytes: &'c [u8], at: usize) -> Self {
        Numbers { bytes, at }
    }

    // The next, if it is there.
    pub fn next(&mut self) -> Option<u32> {
        let found = number::read_number(self.bytes, self.at).ok()?;
        self.at = found.next;
        Some(found.value)
    }

    // The winding that the next four ask for, if they are there: drawn, pushed, relay and which.
    pub fn winding(&mut self, board: Board, sets: &[u8]) -> Option<AskedWinding> {
        let state = State {
            drawn: u64::from(self.next()?),
            pushed: u64::from(self.next()?),
        };
        let relay = self.next()?;
        let which = match self.next()? {
            0 => Which::First,
            _ => Which::Second,
        };
        Some(AskedWinding {
            kept: handed::kept(board, state, sets),
            relay,
            which,
        })
    }

    // Whether the case ends where they do.
    pub fn end_the_case(&self) -> bool {
        self.at == self.bytes.len()
    }
}
