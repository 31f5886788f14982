// Reports on all settings of a board's buttons. What is asked is the length of the log; the state and the sets that are
// handed in are not looked at.
use crate::asked::Asked;
use cases::refusal::ByCall;
use std::io;
use std::io::Write;

// Reports on a board, and prints what the report answers.
pub fn answer_report<W: Write>(out: &mut W, asked: Asked) -> io::Result<()> {
    let reported = report::report(asked.board, asked.number as usize);
    write!(out, "reported")?;
    if let Err(refused) = reported.answer {
        write!(out, " refused {}", ByCall(refused))?;
    }
    let figures = reported.figures;
    write!(out, " {} {}", figures.settings, figures.idle)?;
    write!(
        out,
        " {} {} {}",
        figures.buzz, figures.conflict, figures.spent
    )?;
    writeln!(out, " {} {} {}", figures.moves, figures.most, figures.first)
}
