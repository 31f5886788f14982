// Judges windings through the proved library, by their chains and without listing them, checks terminals that divide
// them, and prints each answer. A case is typed as text: pairs of hex digits are its bytes, `#` opens a comment up to
// the end of the line, white space stands between, and the case ends with `@` (a judgement by chains), `!` (one
// without an allowance) or `?` (the check of a terminal). The bytes are a board file, then numbers in the file's form:
// the drawn relays and the pushed buttons, each as a set (the sum of 2 to each), the relay, and which of its windings
// (0: the first, any other: the second); for `@` then the allowance, and for `?` the terminal. A colon may stand in a
// case: what stands before it are the kept sets that are handed in, and where there is none, the sets are the board's
// own.
#![tactic(auto)]

mod asked;
mod board_case;
mod divide_case;
mod judge_case;

use cases::typed::{self, Answers, Besides};
use std::io;
use std::io::Write;

// Its cases, each answered by the character that ends it.
struct Typed;

impl Answers for Typed {
    fn answer<W: Write>(
        &self,
        out: &mut W,
        character: u8,
        sets: &[u8],
        case: &[u8],
    ) -> io::Result<()> {
        match character {
            b'@' => board_case::answer_case(out, sets, case, judge_case::answer_judgement),
            b'!' => board_case::answer_case(out, sets, case, divide_case::answer_judgement),
            b'?' => board_case::answer_case(out, sets, case, divide_case::answer_check),
            _ => writeln!(out, "bad text"),
        }
    }
}

fn main(rt: HostRuntime) -> io::Result<()> {
    typed::answer_cases(&mut rt.stdin(), &mut rt.stdout(), Besides::Sets, &Typed)
}
