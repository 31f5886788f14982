// Judging a winding by the sets of neighbours: the search goes through the chains in dictionary order until one shows
// the winding, none is left, or the allowance is spent.
#![tactic(auto)]

ghost use Rattle.search.specs.Verdicts.{Searches};

use board::MOST_TERMINALS;
use refusals::Refusal;

mod chain;
mod walk;

// The places of a shown chain.
pub const PLACES: usize = 64;

// The two ends of a winding.
#[derive(Clone, Copy, Debug, PartialEq, Eq)]
pub struct Winding {
    pub a: u8,
    pub b: u8,
}

// What a judgement finds.
#[derive(Clone, Copy, Debug, PartialEq, Eq)]
pub enum Finding {
    Live,
    Dead,
    Undecided,
}

// A judgement: what it finds or the refusal, its effort, and the chain shown, as its length and 64 places, the unused
// ones 0.
#[derive(Clone, Copy)]
pub struct Verdict {
    pub finding: Result<Finding, Refusal>,
    pub effort: u32,
    pub length: usize,
    pub terminals: [u8; 64],
}

// Judges the winding on a board of so many terminals, joined as these sets say. The sets are of 64 terminals: of more,
// only those are looked at.
pub fn search(near: &[u64; 64], terminals: u8, winding: Winding, allowance: u32) -> Verdict
    ensures { Searches near.now terminals winding allowance result }
{
    walk::from_plus(near, terminals.min(MOST_TERMINALS), winding, allowance)
}
