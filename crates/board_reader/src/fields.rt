// Reading one number of a board file: its form first, then its meaning.
ghost use Rattle.std.specs.Prelude.{◌≡◌, Result};
ghost use Rattle.refusals.specs.Outcomes.{told};
ghost use Rattle.refusals.specs.Refusals.{number_of};
ghost use Rattle.number.specs.Numbers.{current_width, number_at};
ghost use Rattle.board_reader.specs.Reading.{AnswersTo};

use refusals::{Found, No, Refusal};

// The number at a place, refused there unless it passes the test.
pub fn read_wanted<F: FnOnce(u32) -> bool>(
    s: &[u8],
    at: usize,
    ok: F,
    no: No,
) -> Result<Found<u32>, Refusal>
    requires { F.IsAlwaysCallable ok }
    ensures { AnswersTo (F.post ok) (number_of no) at (number_at current_width s.now at) (told result) }
{
    let read = number::read_number(s, at);
    let Ok(found) = read else {
        return Err(read.unwrap_err());
    };
    if !ok(found.value) {
        return refuse(no, at);
    }
    Ok(found)
}

// A refusal by number at a place.
pub fn refuse<T>(no: No, place: usize) -> Result<Found<T>, Refusal>
    ensures { result ≡ Result.Err (record { no = no; place = place }) }
{
    Err(Refusal { no, place })
}
