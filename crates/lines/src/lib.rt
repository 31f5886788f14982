// The lines that a session prints, as text in a lent buffer.
#![tactic(auto)]

ghost use Rattle.std.specs.Prelude.{◌≡◌, ◌+◌, ◌≤◌, ◌++◌, length};
ghost use Rattle.arrayvec.specs.ArrayString.{array_string_len};
ghost use Rattle.runs.specs.Running.{told_word};
ghost use Rattle.refusals.specs.Outcomes.{given};
ghost use Rattle.lines.specs.Texts.{decimal, most_digits, spaced, word_text};
ghost use Rattle.lines.specs.Lines.{WritesLine, told_line, line_text, longest_line};

use arrayvec::ArrayString;
use itoa::Buffer;
use refusals::{No, Refusal, unless};
use runs::Ending;

// The longest line, with its line end. No line is longer, and a buffer of this length takes every line.
pub const LONGEST_LINE: usize = 72;

// A refusal as it is printed, by any number that is handed in.
#[derive(Clone, Copy, Debug, PartialEq, Eq)]
pub struct Refused {
    pub number: u32,
    pub place: usize,
}

impl From<Refusal> for Refused {
    ghost use Rattle.refusals.specs.Refusals.{number_of};

    ghost from_gives = { λ r x. x ≡ record { number = number_of r.no; place = r.place } };

    fn from(refusal: Refusal) -> Refused {
        Refused {
            number: u32::from(refusal.no),
            place: refusal.place,
        }
    }
}

// A line: an event with its number, the run's word, its moves and the drawn relays; or the refusal that ends a session.
#[derive(Clone, Copy, Debug, PartialEq, Eq)]
pub enum Line {
    Event {
        event: usize,
        word: Result<Ending, Refused>,
        moves: usize,
        drawn: u64,
    },
    Closing(Refused),
}

// A run's word, and a space.
fn word(ending: Ending) -> &'static str
    ensures { result.now ≡ spaced (word_text (given (told_word ending))) }
{
    match ending {
        Ending::Idle => "idle ",
        Ending::Spent => "spent ",
        Ending::Conflict => "conflict ",
        Ending::Buzz => "buzz ",
    }
}

// Appends a number, and what stands after it.
#[tactic(auto, using(crate::proofs::DecimalLaws::number_pushed))]
fn push_number(text: &mut ArrayString<LONGEST_LINE>, value: u64, then: &str)
    requires { array_string_len text.old + (most_digits + length then.now) ≤ longest_line }
    ensures bytes { text.new.bytes ≡ text.old.bytes ++ (decimal value ++ then.now) }
    ensures longer { array_string_len text.new ≤ array_string_len text.old + (most_digits + length then.now) }
{
    let mut buffer = Buffer::new();
    text.push_str(buffer.format(value));
    text.push_str(then);
}

impl Line {
    // The line as text, with its line end.
    #[tactic(auto, unfolding(crate::specs::Lines::line_text))]
    fn text(&self) -> ArrayString<LONGEST_LINE>
        ensures { result.bytes ≡ line_text (told_line self.now) }
    {
        let mut text = ArrayString::new();
        match *self {
            Line::Event {
                event,
                word: Ok(ending),
                moves,
                drawn,
            } => {
                push_number(&mut text, event as u64, " ");
                text.push_str(word(ending));
                push_number(&mut text, moves as u64, " ");
                push_number(&mut text, drawn, "\n");
            }
            Line::Event {
                event,
                word: Err(refused),
                ..
            } => {
                push_number(&mut text, event as u64, " ");
                text.push_str("refused ");
                push_number(&mut text, u64::from(refused.number), "\n");
            }
            Line::Closing(refused) => {
                text.push_str("refused ");
                push_number(&mut text, u64::from(refused.number), " ");
                push_number(&mut text, refused.place as u64, "\n");
            }
        }
        text
    }
}

// Writes a line at the start of a buffer, and gives its length: 16 if the longest line has no room there.
#[tactic(auto, using(crate::proofs::LineLaws::line_copied, crate::proofs::LineLaws::line_refused))]
pub fn write_line(line: Line, out: &mut [u8]) -> Result<usize, Refusal>
    ensures { WritesLine line out.old result out.new }
{
    unless(LONGEST_LINE <= out.len(), No::BufferTooShort)?;
    let text = line.text();
    let bytes = text.as_bytes();
    out[..bytes.len()].copy_from_slice(bytes);
    Ok(bytes.len())
}
