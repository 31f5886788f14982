// Runs many sessions through the proved library in one process, for the comparison with the second program. Standard
// input holds sessions one after the other, each after its length in four bytes, lowest first; after the lines of each
// comes a line `.`. A length that is too large, or a stream that ends inside a session, ends the program.
#![tactic(auto)]

ghost use Rattle.std.specs.Prelude.{◌≤◌, IfOk, IfSome, OnOk, IsTrue, length};
ghost use Rattle.std.specs.Io.KnownBytes.{Appends, Consumes};
ghost use Rattle.board_reader.specs.Editions.{current_edition};
ghost use Rattle.session.specs.Sessions.{session_text};

use lines::LONGEST_LINE;
use std::io;
use std::io::{ErrorKind, Read, Write};

// The longest session that is taken.
const SESSION_ROOM: usize = 262_144;

// The most sessions that are taken.
const MOST_SESSIONS: usize = 1_000_000;

// Fills a buffer, and says whether the stream had so many bytes.
fn read_full<R: Read>(reader: &mut R, buffer: &mut [u8]) -> io::Result<bool>
    ensures { IfOk result (λ full. IsTrue full
        → Consumes (R.remaining reader.old) (R.remaining reader.new) buffer.new) }
{
    match reader.read_exact(buffer) {
        Ok(()) => Ok(true),
        Err(error) if error.kind() == ErrorKind::UnexpectedEof => Ok(false),
        Err(error) => Err(error),
    }
}

// Reads the next session into the start of a buffer, after its length in four bytes, lowest first, and answers how many
// bytes it has; nothing where the stream ends, or the length is larger than the buffer.
fn read_session<R: Read>(reader: &mut R, buffer: &mut [u8]) -> io::Result<Option<usize>>
    ensures { IfOk result (λ next. IfSome next (λ n. n ≤ length buffer.old)) }
{
    let mut bytes = [0; 4];
    let told = read_full(reader, &mut bytes)?;
    let [low, middle, high, beyond] = bytes;
    let length = u32::from_le_bytes([low, middle, high, 0]) as usize;
    if buffer.len() < length {
        return Ok(None);
    }
    let full = read_full(reader, &mut buffer[..length])?;
    Ok((told && beyond == 0 && full).then_some(length))
}

// Prints the lines of a session.
fn print_lines<W: Write>(out: &mut W, input: &[u8]) -> io::Result<()>
    ensures all_written { OnOk result (Appends (W.contents out.old) (W.contents out.new)
        (session_text current_edition input.now)) }
{
    let mut line = [0; LONGEST_LINE];
    let mut session = session::begin(input);
    loop {
        let handed = session::next_line(session, input, &mut line);
        session = handed.session;
        let Ok(Some(length)) = handed.answer else {
            return Ok(());
        };
        out.write_all(&line[..length])?;
    }
}

// Prints the line after a session.
fn print_end<W: Write>(out: &mut W) -> io::Result<()> {
    out.write_all(b".\n")
}

// Takes the sessions of a stream, and prints the lines of each.
fn take_sessions<R: Read, W: Write>(reader: &mut R, out: &mut W) -> io::Result<()> {
    let mut input = [0; SESSION_ROOM];
    for _ in 0..MOST_SESSIONS {
        let Some(length) = read_session(reader, &mut input)? else {
            return Ok(());
        };
        print_lines(out, &input[..length])?;
        print_end(out)?;
    }
    Ok(())
}

fn main(rt: HostRuntime) -> io::Result<()> {
    take_sessions(&mut rt.stdin(), &mut rt.stdout())
}
