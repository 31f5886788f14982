// The state and the kept sets that a call hands back, as they are printed.
use crate::asked::Asked;
use kept::Kept;
use state::State;
use std::io;
use std::io::Write;

// Prints the drawn relays and the pushed buttons of a state, each as a set.
pub fn print_state<W: Write>(out: &mut W, left: State) -> io::Result<()> {
    write!(out, " {} {}", left.drawn, left.pushed)
}

// Prints each set of a row that is not empty, as its terminal and the sum of 2 to each of its members.
fn print_row<W: Write>(out: &mut W, row: &[u64; 64]) -> io::Result<()> {
    for (terminal, set) in row.iter().enumerate() {
        if *set != 0 {
            write!(out, " {terminal}={set}")?;
        }
    }
    Ok(())
}

// Prints the sets that a call hands back, and ends the line: whether they are those that it was given, whether they
// are the board's own in the state that it hands back, and each set.
pub fn print_sets<W: Write>(out: &mut W, asked: Asked, left: Kept) -> io::Result<()> {
    let sets = left.sets;
    if sets == asked.kept.sets {
        write!(out, " sets given")?;
    } else {
        write!(out, " sets changed")?;
    }
    if sets == neighbours::neighbours(asked.board, left.state) {
        write!(out, " own near")?;
    } else {
        write!(out, " foreign near")?;
    }
    print_row(out, &sets.near)?;
    write!(out, " bare")?;
    print_row(out, &sets.bare)?;
    writeln!(out)
}
