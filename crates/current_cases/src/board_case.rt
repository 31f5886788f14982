// A case from its board on: the board is read, and what follows it is answered by the sort of the case.
use crate::asked::Numbers;
use board::Board;
use cases::refusal::OfFile;
use std::io;
use std::io::Write;

// Reads a case's board, and has the numbers after it answered; where the board is refused, prints that.
pub fn answer_case<W: Write, F>(out: &mut W, sets: &[u8], bytes: &[u8], answer: F) -> io::Result<()>
where
    F: FnOnce(&mut W, Board, &[u8], Numbers) -> io::Result<()>,
    requires { F.IsAlwaysCallable answer }
{
    let read = board_reader::read(bytes);
    match read.answer {
        Err(refused) => write!(out, "{}", OfFile(refused))?,
        Ok(next) => answer(out, read.board, sets, Numbers::from(bytes, next))?,
    }
    writeln!(out)
}
