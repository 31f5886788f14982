// Judging a winding without listing chains (request A6): it is dead exactly if it is shunted, or some terminal divides
// it. As calls on any board, state and kept sets handed in: the judge, with refusals 15, 14, 18 and 11, and the check
// of a terminal handed in, with 19 besides.
#![tactic(auto)]

ghost use Rattle.std.specs.Prelude.{◌≡◌};
ghost use Rattle.divide.specs.AtOnce.{divides, judged_at_once, told_judgement};
ghost use Rattle.divide.specs.AtOnce.{JudgesAtOnce, ChecksTerminal, DividesLowest};

use board::Board;
use judge::Which;
use kept::Kept;
use neighbours::Sets;
use refusals::{No, Refusal, unless};
use search::Winding;

// What the judge says of a winding: it is live, shunted, or dead with the lowest terminal that divides it.
#[derive(Clone, Copy, Debug, PartialEq, Eq)]
pub enum Judgement {
    Live,
    Shunted,
    Dead(u8),
}

// Whether a terminal divides a winding: with it taken out, no remaining pole reaches a remaining end.
#[tactic(auto, unfolding(crate::specs::AtOnce::divides))]
fn divides(near: &[u64; 64], winding: Winding, x: u32) -> bool
    ensures { result ≡ divides near.now winding x }
{
    let reached = feed::reached_without(near, x);
    !bits::has(reached, u32::from(winding.a)) && !bits::has(reached, u32::from(winding.b))
}

// The lowest of so many terminals that divides a winding, if one does.
fn lowest_dividing(near: &[u64; 64], terminals: u8, winding: Winding) -> Option<u8>
    ensures { DividesLowest near.now terminals winding result }
{
    (0..terminals).find(|x| divides(near, winding, u32::from(*x)))
}

// What is said of a winding by the sets of neighbours of so many terminals: shunted first, else live, else dead with
// the lowest terminal that divides it.
fn judge_sets(sets: Sets, terminals: u8, winding: Winding) -> Judgement
    ensures { told_judgement result ≡ judged_at_once sets terminals winding }
{
    if judge::is_shunted(sets, winding) {
        return Judgement::Shunted;
    }
    match lowest_dividing(&sets.near, terminals, winding) {
        Some(x) => Judgement::Dead(x),
        None => Judgement::Live,
    }
}

// Judges that winding of this relay by the kept sets, without an allowance.
pub fn judge(board: Board, kept: Kept, relay: u32, which: Which) -> Result<Judgement, Refusal>
    ensures { JudgesAtOnce board kept relay which result }
{
    let winding = judge::winding_for(board, kept, relay, which)?;
    Ok(judge_sets(kept.sets, board.counts.terminals, winding))
}

// Checks a terminal handed in against that winding of this relay, shunted or not: it is accepted exactly if it divides.
pub fn check(board: Board, kept: Kept, relay: u32, which: Which, x: u32) -> Result<bool, Refusal>
    ensures { ChecksTerminal board kept relay which x result }
{
    let winding = judge::winding_for(board, kept, relay, which)?;
    unless(x < u32::from(board.counts.terminals), No::TerminalBeyond)?;
    Ok(divides(&kept.sets.near, winding, x))
}
