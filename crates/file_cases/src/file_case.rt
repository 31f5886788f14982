// Board files: each is read, and the board that it gives is written back.
use crate::print_written;
use board::Board;
use cases::refusal::OfFile;
use std::io;
use std::io::Write;

// What a buffer is before it is lent, each byte the same: more than any file has.
const UNTOUCHED: [u8; 1_040] = [0xaa; 1_040];

// Whether a buffer holds a file and is untouched after it.
fn holds_file(buffer: &[u8], file: &[u8]) -> bool {
    match buffer.strip_prefix(file) {
        Some(past) => UNTOUCHED.starts_with(past),
        None => false,
    }
}

// Writes a board, and prints whether the buffer then has the bytes of the file that it was read from.
pub fn write_back<W: Write>(out: &mut W, board: Board, file: &[u8]) -> io::Result<()> {
    let mut buffer = UNTOUCHED;
    write!(out, "read {} wrote ", file.len())?;
    print_written(out, board_writer::write(board, &mut buffer))?;
    if holds_file(&buffer, file) {
        writeln!(out, " same")
    } else {
        writeln!(out, " differs")
    }
}

// Writes a board into one byte less of a buffer than the file has that it was read from, and prints what came of it.
pub fn write_short<W: Write>(out: &mut W, board: Board, file: &[u8]) -> io::Result<()> {
    let mut buffer = UNTOUCHED;
    let Some(short) = file.len().checked_sub(1) else {
        return Ok(());
    };
    if buffer.len() <= short {
        return Ok(());
    }
    write!(out, "short ")?;
    print_written(out, board_writer::write(board, &mut buffer[..short]))?;
    if holds_file(&buffer, b"") {
        writeln!(out, " kept")
    } else {
        writeln!(out, " changed")
    }
}

// Reads a board file, and has the board that it gives written, by what was read of the file.
pub fn answer_file<W: Write, F>(out: &mut W, file: &[u8], write: F) -> io::Result<()>
where
    F: FnOnce(&mut W, Board, &[u8]) -> io::Result<()>,
    requires { F.IsAlwaysCallable write }
{
    let read = board_reader::read(file);
    match read.answer {
        Err(refused) => writeln!(out, "{}", OfFile(refused)),
        Ok(next) => write(out, read.board, &file[..next.min(file.len())]),
    }
}
