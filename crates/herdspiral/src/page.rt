// The page of all button settings: what the library reports of the board at the start of the input, in plain words, a
// figure a line. The program prints it where it is started with an argument, which is the length of the log in decimal.
ghost use Rattle.std.specs.Prelude.{◌≤◌};

use crate::write_out;
use lines::{LONGEST_LINE, Line};
use refusals::Refusal;
use report::Figures;
use runs::LONGEST_LOG;
use std::env::FillError;
use std::io;
use std::io::Write;
use std::rt::Env;

// The longest argument that is looked at.
const LONGEST_ARGUMENT: usize = 4_096;

// Said of an argument that is no decimal number.
#[derive(Clone, Copy, Debug, PartialEq, Eq)]
pub struct NoNumber;

// The number with one digit more. One that is above every log's length stays as it is, so none is above 655,369, which
// is the length of the longest log with a 9 behind it.
fn with_decimal(number: usize, digit: u8) -> usize
    requires number_fits { number ≤ 655369 }
    requires is_digit { digit ≤ 9 }
    ensures { result ≤ 655369 }
{
    if LONGEST_LOG < number {
        number
    } else {
        10 * number + usize::from(digit)
    }
}

// The number that a text is in decimal.
fn number_of(text: &[u8]) -> Result<usize, NoNumber> {
    if text.is_empty() {
        return Err(NoNumber);
    }
    let mut number = 0;
    for &character in text {
        match character {
            b'0'..=b'9' => number = with_decimal(number, character - b'0'),
            _ => return Err(NoNumber),
        }
    }
    Ok(number)
}

// The length of the log that the program's argument asks for; nothing where it has none. An argument that is longer
// than 4,096 bytes counts as no number.
pub fn asked_length(rt: &impl Env) -> Result<Option<usize>, NoNumber> {
    let mut text = [0; LONGEST_ARGUMENT];
    match rt.arg(1, &mut text) {
        Ok(length) => number_of(&text[..length]).map(Some),
        Err(FillError::TooLong) => Err(NoNumber),
        Err(FillError::NotPresent) => Ok(None),
    }
}

// Prints a figure after the words for it.
fn print_figure<W: Write>(out: &mut W, words: &str, figure: usize) -> io::Result<()> {
    writeln!(out, "{words}{figure}")
}

// Prints the figures.
fn print_figures<W: Write>(out: &mut W, figures: Figures) -> io::Result<()> {
    print_figure(out, "settings: ", figures.settings)?;
    print_figure(out, "ended idle: ", figures.idle)?;
    print_figure(out, "ended with buzz: ", figures.buzz)?;
    print_figure(out, "ended in conflict: ", figures.conflict)?;
    print_figure(out, "spent: ", figures.spent)?;
    print_figure(out, "moves in all: ", figures.moves)?;
    print_figure(out, "most moves: ", figures.most)?;
    print_figure(out, "first setting with the most moves: ", figures.first)
}

// Prints a refusal as a session does.
fn print_refused<W: Write, E: Write>(out: &mut W, err: &mut E, refusal: Refusal) -> io::Result<()> {
    let mut line = [0; LONGEST_LINE];
    let length = lines::write_line(Line::Closing(refusal.into()), &mut line).unwrap();
    write_out(out, err, &line[..length])
}

// The figures of the board at the start of the input, each setting run with a log of this length.
fn figures(input: &[u8], length: usize) -> Result<Figures, Refusal> {
    let read = board_reader::read(input);
    read.answer?;
    let reported = report::report(read.board, length);
    reported.answer?;
    Ok(reported.figures)
}

// Prints the page of the board at the start of the input.
pub fn print_page<W: Write, E: Write>(
    out: &mut W,
    err: &mut E,
    input: &[u8],
    length: usize,
) -> io::Result<()> {
    match figures(input, length) {
        Ok(figures) => print_figures(out, figures),
        Err(refusal) => print_refused(out, err, refusal),
    }
}
