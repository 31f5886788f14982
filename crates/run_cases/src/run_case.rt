// Runs. What is asked is the length of the log that is lent.
use crate::asked::Asked;
use crate::print_left;
use cases::refusal::ByCall;
use refusals::Refusal;
use runs::Ending;
use std::io;
use std::io::Write;

// More bytes than the longest log has; no longer one is lent.
const LOG_ROOM: usize = 65_540;

// What every byte of a log is before it is lent.
const UNTOUCHED: u8 = 0xaa;

// The most moves that are printed.
const MOST_SHOWN: usize = 40;

// Prints the word that a run ended with.
fn print_word<W: Write>(out: &mut W, word: Result<Ending, Refusal>) -> io::Result<()> {
    match word {
        Ok(Ending::Idle) => write!(out, "ran idle"),
        Ok(Ending::Spent) => write!(out, "ran spent"),
        Ok(Ending::Conflict) => write!(out, "ran conflict"),
        Ok(Ending::Buzz) => write!(out, "ran buzz"),
        Err(refused) => write!(out, "ran refused {}", ByCall(refused)),
    }
}

// Prints the log: the moves made, of which not all are shown, and each byte past them that is touched although it must
// not be.
fn print_log<W: Write>(out: &mut W, made: &[u8], past: &[u8]) -> io::Result<()> {
    for byte in made.iter().take(MOST_SHOWN) {
        write!(out, " {byte}")?;
    }
    for byte in past {
        if *byte != UNTOUCHED {
            write!(out, " and more")?;
        }
    }
    Ok(())
}

// Runs a board over a log of the length that is asked, and prints what the run answers, what it logged and what it
// left.
pub fn answer_run<W: Write>(out: &mut W, asked: Asked) -> io::Result<()> {
    let mut buffer = [UNTOUCHED; LOG_ROOM];
    let Some(log) = buffer.get_mut(..asked.number as usize) else {
        return writeln!(out, "bad case");
    };
    let ran = runs::run(asked.board, asked.kept, log);
    print_word(out, ran.word)?;
    write!(out, " {}", ran.moves)?;
    print_left::print_state(out, ran.kept.state)?;
    write!(out, " {} {} {}:", ran.relay, ran.earlier, ran.between)?;
    let (made, past) = log.split_at(ran.moves.min(log.len()));
    print_log(out, made, past)?;
    print_left::print_sets(out, asked, ran.kept)
}
