// What a case hands in: numbers, a board that may break a rule, and kept sets. Bytes that are not given are 0.
ghost use Rattle.std.specs.Prelude.{◌≡◌, ◌≤◌};
ghost use Rattle.cases.specs.Handed.{byte_given, handed_part, handed_start, GivesNumber, HandsBoard, HandsKept};

use board::{Board, Counts, MOST_PARTS, Part};
use kept::Kept;
use kinds::Kind;
use neighbours::Sets;
use state::State;

// The byte at a place.
fn byte_at(bytes: &[u8], at: usize) -> u8
    ensures { result ≡ byte_given bytes.now at }
{
    bytes.get(at).copied().unwrap_or(0)
}

// The number of three bytes, highest first, at a place, which is one of the first 256.
pub fn number_at(bytes: &[u8], at: u8) -> u32
    ensures { GivesNumber bytes.now at result }
{
    let at = usize::from(at);
    let [high, middle, low] = [at, at + 1, at + 2].map(|at| u32::from(byte_at(bytes, at)));
    65_536 * high + 256 * middle + low
}

// The part whose four bytes begin at a place: kind, a, b and name.
fn part_at(bytes: &[u8], at: usize) -> Part
    requires { at ≤ 1030 }
    ensures { result ≡ handed_part bytes.now at }
{
    Part {
        a: byte_at(bytes, at + 1),
        b: byte_at(bytes, at + 2),
        kind: Kind::of(u32::from(byte_at(bytes, at)), byte_at(bytes, at + 3)),
    }
}

// The start: a set in five bytes, lowest first, from a place on.
fn start_at(bytes: &[u8], at: u8) -> u64
    ensures { result ≡ handed_start bytes.now at }
{
    let at = usize::from(at);
    let low = u64::from(byte_at(bytes, at)) + 256 * u64::from(byte_at(bytes, at + 1));
    let high = u64::from(byte_at(bytes, at + 2)) + 256 * u64::from(byte_at(bytes, at + 3));
    low + 65_536 * high + 4_294_967_296 * u64::from(byte_at(bytes, at + 4))
}

// The board of these bytes: T, R, B, C (low byte, high byte), the start as a set in five bytes, lowest first, and kind,
// a, b and name of each part. Places without a part are blank wires.
pub fn board(bytes: &[u8]) -> Board
    ensures { HandsBoard bytes.now result }
{
    let counts = Counts {
        terminals: byte_at(bytes, 0),
        relays: byte_at(bytes, 1),
        buttons: byte_at(bytes, 2),
        parts: usize::from(byte_at(bytes, 3)) + 256 * usize::from(byte_at(bytes, 4)),
    };
    let mut parts = [board::blank(); MOST_PARTS];
    for (i, part) in parts.iter_mut().enumerate() {
        *part = part_at(bytes, 10 + 4 * i);
    }
    Board {
        counts,
        parts,
        start: start_at(bytes, 5),
    }
}

// Adds a neighbour to the set of a terminal, if there is such a set.
fn add(row: &mut [u64; 64], terminal: u8, neighbour: u8) {
    if let Some(set) = row.get_mut(usize::from(terminal)) {
        *set = bits::with(*set, u32::from(neighbour));
    }
}

// A state with the kept sets that a case hands in beside it, neighbour by neighbour in three bytes: the row (0: near,
// any other: bare), the terminal, and the one that its set has. Where nothing stands there they are those of the board
// in its state; sets that are all empty are typed as one byte.
pub fn kept(board: Board, state: State, sets: &[u8]) -> Kept
    ensures { HandsKept board state sets.now result }
{
    if sets.is_empty() {
        return Kept::of(board, state);
    }
    let mut near = [0; 64];
    let mut bare = [0; 64];
    for neighbour in sets.chunks_exact(3) {
        if neighbour[0] == 0 {
            add(&mut near, neighbour[1], neighbour[2]);
        } else {
            add(&mut bare, neighbour[1], neighbour[2]);
        }
    }
    Kept {
        state,
        sets: Sets { near, bare },
    }
}
