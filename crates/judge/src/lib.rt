// A relay's windings, found in one scan of the parts, and judging: a winding by the sets of neighbours, shunted or by
// the chains, and as a call on any board, state and kept sets handed in, with refusals 15, 14, 18 and 11.
#![tactic(auto)]

ghost use Rattle.std.specs.Prelude.{◌≡◌};
ghost use Rattle.refusals.specs.Outcomes.{told, told_as};
ghost use Rattle.search.specs.Verdicts.{told_finding, told_verdict};
ghost use Rattle.judge.specs.RelayWindings.{is_first, is_second, of_relay, winding_named, or_no_such_winding};
ghost use Rattle.judge.specs.RelayWindings.{told_windings, told_seen, seen_with, FindsWindings, FindsAllWindings};
ghost use Rattle.judge.specs.Judging.{at_once, AsksFor, FindsShunt, JudgesBy, Judges};

use board::{Board, MOST_RELAYS, Part};
use kept::Kept;
use kinds::Kind;
use neighbours::Sets;
use refusals::{No, Refusal};
use search::{Finding, Verdict, Winding};

// Which winding of a relay: its first, the regular or the drawing one, or its second, the dropping one.
#[derive(Clone, Copy, Debug, PartialEq, Eq)]
pub enum Which {
    First,
    Second,
}

// A relay's windings: the one of a regular relay, or the drawing and the dropping one of a steel-core relay.
#[derive(Clone, Copy, Debug, PartialEq, Eq)]
pub enum Windings {
    Regular(Winding),
    Steel { drawing: Winding, dropping: Winding },
}

// Whether a kind is the first winding of this relay.
#[tactic(auto, unfolding(board::specs::Sorts::carries))]
fn is_first(kind: Kind, relay: u32) -> bool
    ensures { result ≡ is_first relay kind }
{
    matches!(kind, Kind::Regular(own) | Kind::Drawing(own) if u32::from(own) == relay)
}

// Whether a kind is the second winding of this relay.
#[tactic(auto, unfolding(board::specs::Sorts::carries))]
fn is_second(kind: Kind, relay: u32) -> bool
    ensures { result ≡ is_second relay kind }
{
    matches!(kind, Kind::Dropping(own) if u32::from(own) == relay)
}

// What is seen of a winding with this part besides, which is that winding if it is here: the first that is seen stays.
fn seen_with(seen: Option<Winding>, part: Part, here: bool) -> Option<Winding>
    ensures { told_seen result ≡ seen_with (told_seen seen) part here }
{
    match seen {
        None if here => Some(Winding {
            a: part.a,
            b: part.b,
        }),
        _ => seen,
    }
}

// A relay's windings by what was seen of its first and of its second; none where there is no first.
fn of_relay(first: Option<Winding>, second: Option<Winding>) -> Option<Windings>
    ensures { told_windings result ≡ of_relay (told_seen first) (told_seen second) }
{
    match (first, second) {
        (None, _) => None,
        (Some(winding), None) => Some(Windings::Regular(winding)),
        (Some(drawing), Some(dropping)) => Some(Windings::Steel { drawing, dropping }),
    }
}

// The windings of this relay, found in one scan of the parts; none where there is no first.
pub fn find_windings(board: Board, relay: u32) -> Option<Windings>
    ensures { FindsWindings board relay result }
{
    let mut first = None;
    let mut second = None;
    for part in board.parts() {
        if u32::from(part.kind.name()) != relay {
            continue;
        }
        first = seen_with(first, *part, is_first(part.kind, relay));
        second = seen_with(second, *part, is_second(part.kind, relay));
    }
    of_relay(first, second)
}

// For each of 32 relays its windings; none where the board has no such relay.
pub fn find_all_windings(board: Board) -> [Option<Windings>; 32]
    ensures { FindsAllWindings board result }
{
    let mut all = [None; 32];
    for relay in 0..board.counts.relays.min(MOST_RELAYS) {
        all[usize::from(relay)] = find_windings(board, u32::from(relay));
    }
    all
}

// That one of a relay's windings; refused by 11 where the relay lacks it.
fn asked_of(windings: Option<Windings>, which: Which) -> Result<Winding, Refusal>
    ensures { told result ≡ or_no_such_winding (winding_named which (told_windings windings)) }
{
    match (windings, which) {
        (Some(Windings::Regular(winding)), Which::First) => Ok(winding),
        (Some(Windings::Steel { drawing, .. }), Which::First) => Ok(drawing),
        (Some(Windings::Steel { dropping, .. }), Which::Second) => Ok(dropping),
        (Some(Windings::Regular(_)), Which::Second) | (None, _) => Err(No::NoSuchWinding.into()),
    }
}

// The winding that a call judges, after 15, 14, 18 and 11.
pub fn winding_for(board: Board, kept: Kept, relay: u32, which: Which) -> Result<Winding, Refusal>
    ensures { AsksFor board kept relay which result }
{
    kept::usable(board, kept)?;
    asked_of(find_windings(board, relay), which)
}

// Whether a winding is shunted: over conducting parts that are no winding, one of its ends reaches the other.
pub fn is_shunted(sets: Sets, winding: Winding) -> bool
    ensures { FindsShunt sets winding result }
{
    let end = bits::with(0, u32::from(winding.a));
    let reached = reach::flood(&sets.bare, end, 0);
    bits::has(reached, u32::from(winding.b))
}

// A judgement without effort, which shows no chain: that of a shunted winding, and a refused one.
fn at_once(finding: Result<Finding, Refusal>) -> Verdict
    ensures { told_verdict result ≡ at_once (told_as told_finding finding) }
{
    Verdict {
        finding,
        effort: 0,
        length: 0,
        terminals: [0; search::PLACES],
    }
}

// Judges a winding by the sets of neighbours of so many terminals, within the allowance. A shunted one is dead at every
// allowance.
fn judge_by(sets: Sets, terminals: u8, winding: Winding, allowance: u32) -> Verdict
    ensures { JudgesBy sets terminals winding allowance result }
{
    if is_shunted(sets, winding) {
        at_once(Ok(Finding::Dead))
    } else {
        search::search(&sets.near, terminals, winding, allowance)
    }
}

// Judges that winding of this relay within the allowance, by the kept sets.
pub fn judge(board: Board, kept: Kept, relay: u32, which: Which, allowance: u32) -> Verdict
    ensures { Judges board kept relay which allowance result }
{
    match winding_for(board, kept, relay, which) {
        Ok(winding) => judge_by(kept.sets, board.counts.terminals, winding, allowance),
        Err(refusal) => at_once(Err(refusal)),
    }
}
