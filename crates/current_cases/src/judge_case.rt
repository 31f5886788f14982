// A judgement by chains as a case asks for it, and its verdict as it is printed.
use crate::asked::Numbers;
use board::Board;
use cases::refusal::ByCall;
use search::{Finding, PLACES, Verdict};
use std::io;
use std::io::Write;

// Prints the chain that a verdict shows, if it has a length, and looks at the places past it: one is used there
// although it must not be.
fn print_chain<W: Write>(out: &mut W, terminals: &[u8; PLACES], length: usize) -> io::Result<()> {
    if length != 0 {
        write!(out, " {length}:")?;
    }
    let (chain, past) = terminals.split_at(length.min(PLACES));
    for terminal in chain {
        write!(out, " {terminal}")?;
    }
    for terminal in past {
        if *terminal != 0 {
            write!(out, " and more")?;
        }
    }
    Ok(())
}

// Prints a verdict; the effort of a refusal is 0, and is printed only if it is not.
fn print_verdict<W: Write>(out: &mut W, verdict: Verdict) -> io::Result<()> {
    let effort = verdict.effort;
    match verdict.finding {
        Ok(Finding::Live) => write!(out, "judged live {effort}")?,
        Ok(Finding::Dead) => write!(out, "judged dead {effort}")?,
        Ok(Finding::Undecided) => write!(out, "judged undecided {effort}")?,
        Err(refused) => {
            write!(out, "judged refused {}", ByCall(refused))?;
            if effort != 0 {
                write!(out, " effort {effort}")?;
            }
        }
    }
    print_chain(out, &verdict.terminals, verdict.length)
}

// Judges as the numbers ask, the allowance last, which must end the case.
pub fn answer_judgement<W: Write>(
    out: &mut W,
    board: Board,
    sets: &[u8],
    mut numbers: Numbers,
) -> io::Result<()> {
    let winding = numbers.winding(board, sets);
    let allowance = numbers.next();
    let (Some(winding), Some(allowance), true) = (winding, allowance, numbers.end_the_case()) else {
        return write!(out, "bad case");
    };
    let verdict = judge::judge(board, winding.kept, winding.relay, winding.which, allowance);
    print_verdict(out, verdict)
}
