// The text of cases: pairs of hex digits are a case's bytes, `#` opens a comment up to the end of the line, white space
// stands between, and any other character ends the case.
ghost use Rattle.std.specs.Prelude.{◌≡◌, ◌≤◌, ◌*◌, ◌++◌, IsTrue, length, take};
ghost use Rattle.cases.specs.Typed.{most_bytes, typed_digits};

use board_reader::LONGEST_INPUT;
use std::io;
use std::io::{Read, Write};

// The longest text that is taken.
const LONGEST_TEXT: usize = 65_536;

// What the text of a program may hold besides: the kept sets that a case hands in, before a colon, which stands after
// whole bytes and once; or `*`, which adds zero bytes up to the longest input.
#[derive(Clone, Copy, Debug, PartialEq, Eq)]
pub enum Besides {
    Sets,
    Zeros,
}

// How a program answers its cases.
pub trait Answers {
    // Answers a case, by the character that ends it, the bytes before its colon and those after it.
    fn answer<W: Write>(
        &self,
        out: &mut W,
        character: u8,
        sets: &[u8],
        bytes: &[u8],
    ) -> io::Result<()>;
}

// The most bytes of a case: more than the longest input has.
const MOST_BYTES: usize = 65_540;

impl Besides {
    // The most bytes of a case; digits beyond them are dropped.
    fn room(self) -> usize
        ensures value { result ≡ most_bytes self }
        ensures fits { result ≤ 65540 }
    {
        match self {
            Besides::Sets => 8_192,
            Besides::Zeros => MOST_BYTES,
        }
    }
}

// A case as far as it is typed: what its text may hold besides, its bytes and how many there are, the first digit of
// the next, and how many bytes stand before its colon.
#[derive(Drop)]
struct Case {
    besides: Besides,
    bytes: [u8; MOST_BYTES],
    length: usize,
    half: Option<u8>,
    sets: usize,
    ghost digits_fit: { typed_digits length half ≤ 2 * most_bytes besides },
    ghost sets_fit: { sets ≤ length },
}

impl Case {
    // A case of which nothing is typed yet.
    fn fresh(besides: Besides) -> Self
        ensures of_text { result.besides ≡ besides }
        ensures nothing_typed { typed_digits result.length result.half ≡ 0 }
    {
        Case {
            besides,
            bytes: [0; MOST_BYTES],
            length: 0,
            half: None,
            sets: 0,
        }
    }

    // Begins the next case.
    fn clear(&mut self)
        ensures same_text { self.new.besides ≡ self.old.besides }
        ensures nothing_typed { typed_digits self.new.length self.new.half ≡ 0 }
    {
        self.length = 0;
        self.half = None;
        self.sets = 0;
    }

    // Whether nothing is typed yet.
    fn is_fresh(&self) -> bool {
        self.length == 0 && self.half.is_none()
    }

    // Adds a digit, if there is room for a byte.
    fn add_digit(&mut self, digit: u8)
        ensures same_text { self.new.besides ≡ self.old.besides }
        ensures no_fewer { typed_digits self.old.length self.old.half ≤ typed_digits self.new.length self.new.half }
    {
        if self.besides.room() <= self.length {
            return;
        }
        self.half = match self.half {
            None => Some(digit),
            Some(high) => {
                self.bytes[self.length] = 16 * (high % 16) + digit % 16;
                self.length += 1;
                None
            }
        };
    }

    // Adds zero bytes up to the longest input, as far as there is room, unless a byte is not whole.
    fn add_zeros(&mut self)
        ensures same_text { self.new.besides ≡ self.old.besides }
        ensures no_fewer { typed_digits self.old.length self.old.half ≤ typed_digits self.new.length self.new.half }
    {
        let end = LONGEST_INPUT.min(self.besides.room());
        if self.half.is_none() && self.length < end {
            self.bytes[self.length..end].fill(0);
            self.length = end;
        }
    }

    // Ends the kept sets, and says whether they may end here.
    fn end_sets(&mut self) -> bool
        ensures same_text { self.new.besides ≡ self.old.besides }
        ensures bytes_stay { typed_digits self.new.length self.new.half ≡ typed_digits self.old.length self.old.half }
        ensures ended { IsTrue result → self.new.sets ≡ self.new.length }
    {
        if self.sets != 0 || self.half.is_some() {
            return false;
        }
        self.sets = self.length;
        true
    }

    // The bytes before the colon, and those after it.
    fn parts(&self) -> (&[u8], &[u8])
        ensures sets { length result.0.now ≡ self.now.sets }
        ensures all { result.0.now ++ result.1.now ≡ take self.now.length self.now.bytes }
    {
        self.bytes[..self.length].split_at(self.sets)
    }
}

// Reads until the buffer is full or the input ends, and gives what was read.
fn read_text<'t, R: Read>(
    reader: &mut R,
    text: &'t mut [u8; LONGEST_TEXT],
) -> io::Result<&'t [u8]> {
    let mut length = 0;
    while length < text.len() {
        let more = reader.read(&mut text[length..])?;
        if more == 0 {
            break;
        }
        length += more;
    }
    Ok(&text[..length])
}

// Takes all of the text, and has each case answered where it ends. What stands after the last case is malformed. Of a
// text longer than 65,536 bytes the rest is not taken, and has no answers.
pub fn answer_cases<R: Read, W: Write, A: Answers>(
    reader: &mut R,
    out: &mut W,
    besides: Besides,
    answers: &A,
) -> io::Result<()> {
    let mut text = [0; LONGEST_TEXT];
    let mut case = Case::fresh(besides);
    let mut comment = false;
    for &character in read_text(reader, &mut text)? {
        if comment {
            comment = character != b'\n';
            continue;
        }
        match character {
            b'0'..=b'9' => case.add_digit(character - b'0'),
            b'a'..=b'f' => case.add_digit(character - b'a' + 10),
            b' ' | b'\n' => {}
            b'#' => comment = true,
            b'*' if besides == Besides::Zeros => case.add_zeros(),
            b':' if besides == Besides::Sets => {
                if !case.end_sets() {
                    writeln!(out, "bad text")?;
                    case.clear();
                }
            }
            _ => {
                if case.half.is_some() {
                    writeln!(out, "bad text")?;
                } else {
                    let (sets, asked) = case.parts();
                    answers.answer(out, character, sets, asked)?;
                }
                case.clear();
            }
        }
    }
    if !case.is_fresh() {
        writeln!(out, "bad text")?;
    }
    Ok(())
}
