// Every setting of a board's buttons, in order: the report calls itself for the highest button off and on.
ghost use Rattle.std.specs.Prelude.{◌≡◌, [], ◌∷◌, length};
ghost use Rattle.runs.specs.Running.{run_on};
ghost use Rattle.report.specs.Figures.{figures_of};
ghost use Rattle.report.specs.BothWays.{both_ways, CanSet};

use crate::Figures;
use board::Board;
use kept::Kept;
use state::State;

// The figures of the run from one state, over a lent log.
fn report_one(board: Board, state: State, log: &mut [u8]) -> Figures
    requires { CanSet board state 0 (length log.old) }
    ensures { result ≡ figures_of (run_on board (length log.old) state ∷ []) }
{
    let ran = runs::run(board, Kept::of(board, state), log);
    Figures::one_run(ran.word, ran.moves)
}

// The figures of all settings of the lowest buttons, so many of them, with all else as in this state: those with the
// highest of them as it is, then those with it pushed. So, where none of them is pushed, the settings come in order.
pub fn report_from(board: Board, state: State, left: u8, log: &mut [u8]) -> Figures
    requires { CanSet board state left (length log.old) }
    ensures { result ≡ figures_of (both_ways (run_on board (length log.old)) left state) }
{
    if left == 0 {
        return report_one(board, state, log);
    }
    let button = left - 1;
    let off = report_from(board, state, button, log);
    let on = report_from(board, state.push(u32::from(button)), button, log);
    off.followed_within(on)
}
