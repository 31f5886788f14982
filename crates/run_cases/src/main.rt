// Pushes and releases buttons, moves relays, runs boards and reports on all settings of their buttons, through the
// proved library, and prints what came of it. A case is typed as text: pairs of hex digits are its bytes, `#` opens a
// comment up to the end of the line, white space stands between, and the case ends with `+` (a push), `-` (a release),
// `^` (a single move), `=` (a run) or `%` (a report). The bytes are three numbers and a board that is handed in, so
// that it may break a rule. A colon may stand in a case: what stands before it are the kept sets that are handed in,
// and where there is none, the sets are the board's own.
#![tactic(auto)]

mod asked;
mod move_case;
mod press_case;
mod print_left;
mod report_case;
mod run_case;

use asked::Asked;
use cases::typed::{self, Answers, Besides};
use std::io;
use std::io::Write;

// Its cases, each answered by the character that ends it.
struct Typed;

impl Answers for Typed {
    fn answer<W: Write>(
        &self,
        out: &mut W,
        character: u8,
        sets: &[u8],
        case: &[u8],
    ) -> io::Result<()> {
        match character {
            b'+' => press_case::answer_press(out, Asked::of(sets, case), presses::push),
            b'-' => press_case::answer_press(out, Asked::of(sets, case), presses::release),
            b'^' => move_case::answer_move(out, Asked::of(sets, case)),
            b'=' => run_case::answer_run(out, Asked::of(sets, case)),
            b'%' => report_case::answer_report(out, Asked::of(sets, case)),
            _ => writeln!(out, "bad text"),
        }
    }
}

fn main(rt: HostRuntime) -> io::Result<()> {
    typed::answer_cases(&mut rt.stdin(), &mut rt.stdout(), Besides::Sets, &Typed)
}
