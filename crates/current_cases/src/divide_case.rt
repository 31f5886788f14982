// A judgement without an allowance, and the check of a terminal handed in, as a case asks for them and as they are
// printed.
use crate::asked::Numbers;
use board::Board;
use cases::refusal::ByCall;
use divide::Judgement;
use std::io;
use std::io::Write;

// Judges without an allowance as the numbers ask, which must end the case.
pub fn answer_judgement<W: Write>(
    out: &mut W,
    board: Board,
    sets: &[u8],
    mut numbers: Numbers,
) -> io::Result<()> {
    let winding = numbers.winding(board, sets);
    let (Some(winding), true) = (winding, numbers.end_the_case()) else {
        return write!(out, "bad case");
    };
    match divide::judge(board, winding.kept, winding.relay, winding.which) {
        Ok(Judgement::Live) => write!(out, "told live"),
        Ok(Judgement::Shunted) => write!(out, "told shunted"),
        Ok(Judgement::Dead(lowest)) => write!(out, "told dead {lowest}"),
        Err(refused) => write!(out, "told refused {}", ByCall(refused)),
    }
}

// Checks a terminal as the numbers ask, the terminal last, which must end the case.
pub fn answer_check<W: Write>(
    out: &mut W,
    board: Board,
    sets: &[u8],
    mut numbers: Numbers,
) -> io::Result<()> {
    let winding = numbers.winding(board, sets);
    let x = numbers.next();
    let (Some(winding), Some(x), true) = (winding, x, numbers.end_the_case()) else {
        return write!(out, "bad case");
    };
    match divide::check(board, winding.kept, winding.relay, winding.which, x) {
        Ok(true) => write!(out, "checked divides"),
        Ok(false) => write!(out, "checked does not divide"),
        Err(refused) => write!(out, "checked refused {}", ByCall(refused)),
    }
}
