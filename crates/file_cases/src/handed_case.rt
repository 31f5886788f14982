// Boards handed in: their bytes are those of `cases::handed::board`.
ghost use Rattle.std.specs.Prelude.{◌≡◌, length};
ghost use Rattle.refusals.specs.Outcomes.{refused, told};
ghost use Rattle.refusals.specs.Refusals.{buffer_too_short};
ghost use Rattle.board_writer.specs.File.{longest_file};

use crate::print_written;
use board::Board;
use board_writer::LONGEST_FILE;
use cases::handed;
use refusals::Refusal;
use std::io;
use std::io::Write;

// Writes a board into a buffer as long as the longest file: none is refused by 16.
fn write_any(board: Board, out: &mut [u8]) -> Result<usize, Refusal>
    requires { length out.old ≡ longest_file }
    ensures { ¬ (told result ≡ refused buffer_too_short 0) }
{
    board_writer::write(board, out)
}

// Writes the board handed in.
pub fn answer_board<W: Write>(out: &mut W, bytes: &[u8]) -> io::Result<()> {
    let mut buffer = [0; LONGEST_FILE];
    write!(out, "write ")?;
    print_written(out, write_any(handed::board(bytes), &mut buffer))?;
    writeln!(out)
}
