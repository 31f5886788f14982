// Reads and writes boards through the proved library and prints what came of it. A case is typed as text: pairs of hex
// digits are its bytes, `*` adds zero bytes up to the longest input, `#` opens a comment up to the end of the line,
// white space stands between, and the case ends with `>` (a board file, to be read and written back), `?` (a board
// file, to be written into a buffer one byte too short) or `!` (a board handed in, to be written).
#![tactic(auto)]

mod file_case;
mod handed_case;

use cases::refusal::ByCall;
use cases::typed::{self, Answers, Besides};
use refusals::Refusal;
use std::io;
use std::io::Write;

// Prints what writing came to.
fn print_written<W: Write>(out: &mut W, written: Result<usize, Refusal>) -> io::Result<()> {
    match written {
        Ok(length) => write!(out, "{length}"),
        Err(refused) => write!(out, "refused {}", ByCall(refused)),
    }
}

// Its cases, each answered by the character that ends it.
struct Typed;

impl Answers for Typed {
    fn answer<W: Write>(
        &self,
        out: &mut W,
        character: u8,
        _sets: &[u8],
        case: &[u8],
    ) -> io::Result<()> {
        match character {
            b'>' => file_case::answer_file(out, case, file_case::write_back),
            b'?' => file_case::answer_file(out, case, file_case::write_short),
            b'!' => handed_case::answer_board(out, case),
            _ => writeln!(out, "bad text"),
        }
    }
}

fn main(rt: HostRuntime) -> io::Result<()> {
    typed::answer_cases(&mut rt.stdin(), &mut rt.stdout(), Besides::Zeros, &Typed)
}
