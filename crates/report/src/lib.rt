// One page for all button settings (request A10): every setting of a board's buttons is run from the start state, and
// the figures of all runs are reported.
#![tactic(auto)]

ghost use Rattle.std.specs.Prelude.{◌≡◌, ◌≤◌, length};
ghost use Rattle.refusals.specs.Outcomes.{given, told};
ghost use Rattle.runs.specs.Running.{longest_log};
ghost use Rattle.report.specs.Settings.{all_runs};
ghost use Rattle.report.specs.Figures.{figures_of};
ghost use Rattle.report.specs.Reporting.{reportable, Reports};

use board::Board;
use refusals::{No, Refusal, unless};
use runs::LONGEST_LOG;
use state::State;

mod settings;
mod tally;
#[cfg(test)]
mod tests;

// The most buttons of a board that is reported on.
pub const MOST_REPORTED: u8 = 12;

// The figures of a report: the settings, how many ended with each word, the moves of all, the most moves, and the first
// setting that has so many.
#[derive(Clone, Copy, Debug, PartialEq, Eq, Default)]
pub struct Figures {
    pub settings: usize,
    pub idle: usize,
    pub buzz: usize,
    pub conflict: usize,
    pub spent: usize,
    pub moves: usize,
    pub most: usize,
    pub first: usize,
}

// A report: its figures, all zeros where it is refused, and what refuses it.
#[derive(Clone, Copy)]
pub struct Reported {
    pub figures: Figures,
    pub answer: Result<(), Refusal>,
}

// What stands against a report: 15, 13 or 20, or nothing.
fn can_report(board: Board, room: usize) -> Result<(), Refusal>
    ensures { told result ≡ reportable board room }
{
    let sound = board::check(board);
    let short = room <= LONGEST_LOG;
    let few = board.counts.buttons <= MOST_REPORTED;
    unless(sound, No::BrokenBoard)?;
    unless(short, No::LogTooLong)?;
    unless(few, No::TooManyButtons)?;
    Ok(())
}

// The figures of all settings, each run with room for so many moves, over a lent log that is long enough.
fn report_over(board: Board, room: usize, log: &mut [u8]) -> Figures
    requires accepted { reportable board room ≡ given tt }
    requires log_long { longest_log ≤ length log.old }
    ensures { result ≡ figures_of (all_runs board room) }
{
    let start = State::fresh(board);
    settings::report_from(board, start, board.counts.buttons, &mut log[..room])
}

// The figures of all settings, each run with room for so many moves.
fn report_all(board: Board, room: usize) -> Figures
    requires { reportable board room ≡ given tt }
    ensures { result ≡ figures_of (all_runs board room) }
{
    let mut log = [0u8; LONGEST_LOG];
    report_over(board, room, &mut log)
}

// Reports on a board, each setting of whose buttons is run with a log of this length: room for so many moves.
pub fn report(board: Board, room: usize) -> Reported
    ensures { Reports board room result }
{
    let answer = can_report(board, room);
    let figures = match answer {
        Ok(()) => report_all(board, room),
        Err(_) => Figures::default(),
    };
    Reported { figures, answer }
}
