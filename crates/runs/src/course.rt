// The course of a run on a board of no more than 32 relays: look, move, and look again.
ghost use Rattle.std.specs.Prelude.{◌≡◌, ◌<◌, ◌≤◌, length};
ghost use Rattle.board.specs.Rules.{most_relays};
ghost use Rattle.kept.specs.Kept.{kept_at};
ghost use Rattle.moves.specs.Steps.{told_move};
ghost use Rattle.runs.specs.LookingBack.{most_words};
ghost use Rattle.runs.specs.Looks.{draw_mark, byte_of};
ghost use Rattle.runs.specs.Running.{ran_over, told_ran};

use crate::back::Notches;
use crate::{DRAW_MARK, Ending, NO_RELAY, Ran};
use board::Board;
use kept::Kept;
use moves::Move;

// The log byte of a move: the relay number, plus 128 for a draw.
fn byte(relay: u8, motion: Move) -> u8
    requires { relay < draw_mark }
    ensures { result ≡ byte_of relay (told_move motion) }
{
    match motion {
        Move::Drew => relay + DRAW_MARK,
        Move::Dropped | Move::Rests | Move::Conflict => relay,
    }
}

// Unless it met its state before, it looks at the relays from 0 up; the first that does not rest decides: a move is
// made and logged and it looks again, and anything else stops the run. The sets belong to the board and the state, and
// are kept so. It begins with no notch cut. Where the windings lie is found once for the run, and which terminals are
// served and linked once for a look.
pub fn follow<const WORDS: usize>(board: Board, start: Kept, log: &mut [u8]) -> Ran
    requires some_words { 0 < WORDS }
    requires words_few { WORDS ≤ most_words }
    requires relays_few { board.counts.relays ≤ most_relays }
    requires start_kept { start ≡ kept_at board start.state }
    ensures { told_ran result log.new ≡ ran_over board start log.old }
{
    let mut notches = Notches { words: [0; WORDS] };
    let relays = board.counts.relays;
    let windings = judge::find_all_windings(board);
    let mut kept = start;
    let mut moves = 0;
    let (word, relay, earlier, between) = 'run: loop {
        let state = kept.state;
        if let Some(ago) = notches.look_back(log, moves, state.drawn) {
            break 'run (Ending::Buzz, NO_RELAY, moves - ago, ago);
        }
        let feed = feed::feed_by(kept.sets, board.counts.terminals);
        for relay in 0..relays {
            let drawn = state.is_drawn(u32::from(relay));
            let motion = moves::step(&feed, windings[usize::from(relay)], drawn);
            match motion {
                Move::Rests => {}
                Move::Conflict => break 'run (Ending::Conflict, relay, 0, 0),
                Move::Drew | Move::Dropped => {
                    if log.len() <= moves {
                        break 'run (Ending::Spent, relay, 0, 0);
                    }
                    log[moves] = byte(relay, motion);
                    kept = moves::after(board, kept, u32::from(relay), motion);
                    moves += 1;
                    continue 'run;
                }
            }
        }
        break 'run (Ending::Idle, NO_RELAY, 0, 0);
    };
    Ran {
        word: Ok(word),
        moves,
        kept,
        relay,
        earlier,
        between,
    }
}
