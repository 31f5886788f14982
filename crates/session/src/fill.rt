// A line that is handed out into a buffer, and what several of them come to.
ghost use Rattle.std.specs.Prelude.{◌≡◌};
ghost use Rattle.session.specs.Carried.{told_ahead};
ghost use Rattle.session.specs.HandingOut.{line_handed, told_hand_out, told_line_handed};
ghost use Rattle.session.specs.Filling.{summed};

use crate::{Ahead, next};
use board::Board;
use lines::LONGEST_LINE;
use refusals::{No, Refusal, unless};

// A line that was handed out: how long it is, and what is ahead after it.
#[derive(Clone, Copy)]
pub struct HandedLine {
    pub length: usize,
    pub ahead: Ahead,
}

// Hands out the next line into a buffer, if one comes: 16 if the longest line has no room there.
pub fn hand_line(
    board: Board,
    ahead: Ahead,
    s: &[u8],
    out: &mut [u8],
) -> Result<Option<HandedLine>, Refusal>
    ensures { told_line_handed (told_ahead ahead) result out.new
        ≡ line_handed board (told_ahead ahead) s.now out.old }
{
    unless(LONGEST_LINE <= out.len(), No::BufferTooShort)?;
    let Some(next) = next::advance(board, ahead, s) else {
        return Ok(None);
    };
    let length = lines::write_line(next.line, out)?;
    Ok(Some(HandedLine {
        length,
        ahead: next.ahead,
    }))
}

// What a call came to that handed out so many bytes of lines, and then met the last answer: where there are no lines,
// that is the answer.
pub fn sum_up(used: usize, last: Result<Option<usize>, Refusal>) -> Result<Option<usize>, Refusal>
    ensures { told_hand_out result ≡ summed used (told_hand_out last) }
{
    if used == 0 { last } else { Ok(Some(used)) }
}
