// The session program: reads a session from standard input and writes its lines on standard output, and once more on
// standard error those that say `refused`. What the lines are and how they fill a buffer is the library's to say (crate
// `session`); here is only the reading and the writing. Started with an argument, the length of a log, it prints the
// page of all settings of the board at the start of the input instead (`page.rt`).
#![tactic(auto)]

ghost use Rattle.std.specs.Prelude.{ℕ, suc, ◌+◌, ◌<◌, ◌≤◌, ◌≡◌, List, None, Ok, IfOk, OnOk, OnErr, length, take, drop};
ghost use Rattle.std.specs.Io.KnownBytes.{Appends, Consumes, IsAtEnd, Keeps};
ghost use Rattle.board_reader.specs.Editions.{current_edition};
ghost use Rattle.board_reader.specs.Reading.{longest_input};
ghost use Rattle.lines.specs.Lines.{longest_line};
ghost use Rattle.session.specs.Carried.{no_line, next_in};
ghost use Rattle.session.specs.Sessions.{session_text};

use board_reader::LONGEST_INPUT;
use page::NoNumber;
use session::Session;
use std::io;
use std::io::{Read, Write};

mod page;

// One byte more than the longest input: these tell that an input is too long, and no more is read.
const INPUT_ROOM: usize = LONGEST_INPUT + 1;

// What is told where a read or a write failed, or the argument is no length of a log.
const UNREAD: &[u8] = b"herdspiral: standard input cannot be read\n";

const UNWRITTEN: &[u8] = b"herdspiral: standard output cannot be written\n";

const NO_LENGTH: &[u8] = b"herdspiral: the length of the log is not a decimal number\n";

// Room for the lines that are written out together.
const LINES_ROOM: usize = 16_384;

// Reads once, into the buffer from a place on, and answers how many bytes were read.
fn read_on<R: Read>(reader: &mut R, buffer: &mut [u8], at: usize) -> io::Result<usize>
    requires { at ≤ length buffer.old }
    ensures length_fits { IfOk result (λ read. at + read ≤ length buffer.old) }
    ensures kept { take at buffer.new ≡ take at buffer.old }
    ensures bytes { IfOk result (λ read. Consumes (R.remaining reader.old) (R.remaining reader.new)
        (take read (drop at buffer.new))) }
    ensures end { IfOk result (λ read. read ≡ 0 → at < length buffer.old → IsAtEnd (R.remaining reader.new)) }
    ensures failed { OnErr result (Keeps (R.remaining reader.old) (R.remaining reader.new)) }
{
    reader.read(&mut buffer[at..])
}

// Reads until the buffer is full, the input ends or a read fails, and answers how many bytes were read. The buffer has
// room for the longest input and one byte more; where a read failed, it is not full.
fn read_input<R: Read>(reader: &mut R, buffer: &mut [u8]) -> io::Result<usize>
    requires { length buffer.old ≡ suc longest_input }
    ensures length_fits { IfOk result (λ read. read ≤ length buffer.old) }
    ensures bytes { IfOk result (λ read. Consumes (R.remaining reader.old) (R.remaining reader.new)
        (take read buffer.new)) }
    ensures end { IfOk result (λ read. read < length buffer.old → IsAtEnd (R.remaining reader.new)) }
    ensures not_full { OnErr result ((read : ℕ) × (read < length buffer.old)
        × Consumes (R.remaining reader.old) (R.remaining reader.new) (take read buffer.new)) }
{
    let mut length = 0;
    while length < buffer.len() {
        let more = read_on(reader, buffer, length)?;
        if more == 0 {
            return Ok(length);
        }
        length += more;
    }
    Ok(length)
}

// Repeats on standard error each refused line of a text, so that whoever started the program learns of them without
// looking through standard output: no other word of a line has an `r`. Where standard error takes nothing, that is
// passed over.
fn tell_refused<E: Write>(err: &mut E, lines: &[u8]) {
    for line in lines.split_inclusive(|&byte| byte == b'\n') {
        if line.ends_with(b"\n") && line.contains(&b'r') {
            let _ = err.write_all(line);
        }
    }
}

// Writes out lines, and then tells what is refused there. Where a write failed, some of them may be written, and
// nothing is told.
fn write_out<W: Write, E: Write>(out: &mut W, err: &mut E, lines: &[u8]) -> io::Result<()>
    ensures { OnOk result (Appends (W.contents out.old) (W.contents out.new) lines.now) }
{
    out.write_all(lines)?;
    tell_refused(err, lines);
    Ok(())
}

// Prints the lines of a session by way of a buffer with room for the longest line. Where all were written, nothing is
// left to come in the session that is answered; an error is that of the write that failed.
fn print_lines<W: Write, E: Write>(
    out: &mut W,
    err: &mut E,
    input: &[u8],
    lines: &mut [u8],
) -> io::Result<Session>
    requires { longest_line ≤ length lines.old }
    ensures nothing_left { IfOk result (λ session. (next_in session input.now).1 ≡ no_line) }
    ensures all_written { OnOk result (Appends (W.contents out.old) (W.contents out.new)
        (session_text current_edition input.now)) }
{
    let mut session = session::begin(input);
    loop {
        let handed = session::next_lines(session, input, lines);
        session = handed.session;
        let Ok(Some(used)) = handed.answer else {
            return Ok(session);
        };
        write_out(out, err, &lines[..used])?;
    }
}

// Tells something on standard error. Where that takes nothing, it is passed over.
fn tell<E: Write>(err: &mut E, words: &[u8]) {
    let _ = err.write_all(words);
}

// Runs a session.
fn run_session<W: Write, E: Write>(out: &mut W, err: &mut E, input: &[u8]) -> io::Result<()>
    ensures { OnOk result (Appends (W.contents out.old) (W.contents out.new)
        (session_text current_edition input.now)) }
{
    let mut lines = [0; LINES_ROOM];
    print_lines(out, err, input, &mut lines)?;
    Ok(())
}

// Reads the input, and prints its session; or the page of its board, where a length of the log is asked for. An error
// is what to tell of it. Where a session was printed, it is that of all that was read: to the input's end, or one byte
// more than the longest input.
fn answer_input<R: Read, W: Write, E: Write>(
    reader: &mut R,
    out: &mut W,
    err: &mut E,
    asked: Result<Option<usize>, NoNumber>,
) -> Result<(), &'static [u8]>
    ensures { asked ≡ Ok None → OnOk result ((input : List ℕ)
        × Consumes (R.remaining reader.old) (R.remaining reader.new) input
        × (length input < suc longest_input → IsAtEnd (R.remaining reader.new))
        × Appends (W.contents out.old) (W.contents out.new) (session_text current_edition input)) }
{
    let mut buffer = [0; INPUT_ROOM];
    let Ok(read) = read_input(reader, &mut buffer) else {
        return Err(UNREAD);
    };
    let input = &buffer[..read];
    match asked {
        Ok(None) => run_session(out, err, input).map_err(|_| UNWRITTEN),
        Ok(Some(length)) => page::print_page(out, err, input, length).map_err(|_| UNWRITTEN),
        Err(NoNumber) => Err(NO_LENGTH),
    }
}

// What standard output and standard error are given is written at once: neither is buffered here.
fn main(rt: HostRuntime) {
    let mut err = rt.stderr();
    let asked = page::asked_length(&rt);
    if let Err(words) = answer_input(&mut rt.stdin(), &mut rt.stdout(), &mut err, asked) {
        tell(&mut err, words);
    }
}
