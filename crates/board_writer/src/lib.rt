// Writing a board file: made once in fixed memory, then measured, then copied into a lent buffer of any length; or a
// refusal with no byte written.
#![tactic(auto)]

ghost use Rattle.std.specs.Prelude.{◌≡◌, ◌+◌, ◌≤◌, ◌++◌, length};
ghost use Rattle.number.specs.Numbers.{number_bytes};
ghost use Rattle.board.specs.Parts.{most_parts};
ghost use Rattle.board_writer.specs.File.{counts_bytes, part_bytes, board_bytes, longest_file};
ghost use Rattle.board_writer.specs.Writing.{Writes};

use arrayvec::ArrayVec;
use board::{Board, Counts, Part};
use refusals::{No, Refusal, unless};

// No board's file is longer, so a buffer of this length is never refused by 16.
pub const LONGEST_FILE: usize = 1029;

// The longest form of a number, in bytes.
const LONGEST_NUMBER: usize = 5;

// Adds a number's bytes. A number of one byte is that byte itself, and all of a board's numbers are such, but for C.
fn push_number(file: &mut ArrayVec<u8, LONGEST_FILE>, value: u32)
    requires { length file.old.items + length (number_bytes value) ≤ longest_file }
    ensures { file.new.items ≡ file.old.items ++ number_bytes value }
{
    if number::number_length(value) == 1 {
        file.push(value as u8);
        return;
    }
    let mut bytes = [0; LONGEST_NUMBER];
    let length = number::write_number(value, &mut bytes, 0).unwrap();
    file.try_extend_from_slice(&bytes[..length]).unwrap();
}

// Adds T, R, B and C.
#[tactic(auto, using(crate::proofs::LengthLaws::counts_pushed))]
fn push_counts(file: &mut ArrayVec<u8, LONGEST_FILE>, counts: Counts)
    requires room { length file.old.items + length (counts_bytes counts) ≤ longest_file }
    requires parts { counts.parts ≤ most_parts }
    ensures { file.new.items ≡ file.old.items ++ counts_bytes counts }
{
    push_number(file, u32::from(counts.terminals));
    push_number(file, u32::from(counts.relays));
    push_number(file, u32::from(counts.buttons));
    push_number(file, counts.parts as u32);
}

// Adds a part's kind and its fields.
fn push_part(file: &mut ArrayVec<u8, LONGEST_FILE>, part: Part)
    requires { length file.old.items + length (part_bytes part) ≤ longest_file }
    ensures { file.new.items ≡ file.old.items ++ part_bytes part }
{
    push_number(file, part.kind.number());
    let fields = part.kind.fields(part.a, part.b);
    for &field in fields.as_slice() {
        push_number(file, u32::from(field));
    }
}

// Adds a board's file: its counts, and then part after part.
fn push_board(file: &mut ArrayVec<u8, LONGEST_FILE>, board: Board)
    requires room { length file.old.items + length (board_bytes board) ≤ longest_file }
    requires parts { board.counts.parts ≤ most_parts }
    ensures { file.new.items ≡ file.old.items ++ board_bytes board }
{
    push_counts(file, board.counts);
    for &part in board.parts() {
        push_part(file, part);
    }
}

// Writes a board's file at the start of the buffer: 15, then 16, with no byte written.
pub fn write(board: Board, out: &mut [u8]) -> Result<usize, Refusal>
    ensures { Writes board out.old result out.new }
{
    unless(board::check(board), No::BrokenBoard)?;
    let mut file = ArrayVec::new();
    push_board(&mut file, board);
    let bytes = file.as_slice();
    unless(bytes.len() <= out.len(), No::BufferTooShort)?;
    out[..bytes.len()].copy_from_slice(bytes);
    Ok(bytes.len())
}
