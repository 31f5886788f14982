// The chain walk: one function enters a terminal, another tries its next neighbour; they call each other, with
// unvisited terminals and untried numbers falling.
ghost use Rattle.std.specs.Prelude.{◌≡◌, ◌-◌, ◌<◌, ◌≤◌, take, unwrap_or, IfSome};
ghost use Rattle.bits.specs.Sets.{member, first_from};
ghost use Rattle.board.specs.Rules.{most_terminals};
ghost use Rattle.search.specs.Verdicts.{places as placed, verdict_by, told_finding, told_verdict};
ghost use Rattle.search.specs.Walks.{path_in, Carries, WalkComes, entered, tried, no_chain, concluded};
ghost use Rattle.search.specs.Walks.{LeftWithin, told_walked};

use crate::chain::Chain;
use crate::{Finding, PLACES, Verdict, Winding};

// Terminal 1.
const MINUS: u8 = 1;

// What a walk comes to: a chain that shows the winding; none among the chains walked; or the allowance is spent first.
#[derive(Clone, Copy, Debug, PartialEq, Eq)]
pub enum Scan {
    Showing,
    ShowingNone,
    AllowanceSpent,
}

// What a walk comes to, what is left of the allowance, and how many terminals the chain has at which it came to that.
#[derive(Clone, Copy)]
pub struct Walked {
    pub found: Scan,
    pub left: u32,
    pub length: usize,
}

impl Walked {
    // What a walk comes to at a chain of this length, with so much of the allowance left.
    fn at(length: usize, found: Scan, left: u32) -> Self
        ensures { result ≡ record { found = found; left = left; length = length } }
    {
        Walked {
            found,
            left,
            length,
        }
    }
}

// What a walk goes by: the sets of neighbours of so many terminals, and the winding.
#[derive(Clone, Copy)]
struct Walk<'n> {
    near: &'n [u64; 64],
    terminals: u8,
    winding: Winding,
    ghost few: { terminals ≤ most_terminals },
}

impl Walk<'_> {
    // The lowest member of the set from n up that is below the number of terminals, if there is one.
    fn next_member(&self, set: u64, n: u8) -> Option<u8>
        requires n_within { n ≤ self.now.terminals }
        ensures lowest { unwrap_or result self.now.terminals
            ≡ first_from (member set) (self.now.terminals - n) n }
        ensures below { IfSome result (λ x. x < self.now.terminals) }
    {
        match bits::lowest_from(set, u32::from(n)) {
            Some(next) if next < u32::from(self.terminals) => Some(next as u8),
            _ => None,
        }
    }

    // Enters the terminal at which the chain ends: counts the chain, looks whether it shows the winding, and goes on
    // from it. The chain's terminals stand in the first of the lent places, and stay there.
    #[cycle(enter_try_next)]
    fn enter(&self, chain: Chain, left: u32, places: &mut [u8; 64]) -> Walked
        requires carries { Carries self.now.winding chain places.old }
        ensures { WalkComes result chain places.old places.new
            (entered self.now.near.now self.now.terminals self.now.winding (path_in chain places.old) left) }
    {
        let length = chain.length;
        if left == 0 {
            return Walked::at(length, Scan::AllowanceSpent, left);
        }
        let left = left - 1;
        if chain.end == MINUS {
            if chain.beside {
                return Walked::at(length, Scan::Showing, left);
            }
            return Walked::at(length, Scan::ShowingNone, left);
        }
        if usize::from(self.terminals) <= length {
            return Walked::at(length, Scan::ShowingNone, left);
        }
        self.try_next(chain, 0, left, places)
    }

    // Tries the next neighbour, from the number n up, to which the chain can go on.
    #[cycle(enter_try_next)]
    fn try_next(&self, chain: Chain, n: u8, left: u32, places: &mut [u8; 64]) -> Walked
        requires carries { Carries self.now.winding chain places.old }
        requires length_below { chain.length < self.now.terminals }
        requires n_within { n ≤ self.now.terminals }
        ensures { WalkComes result chain places.old places.new
            (tried self.now.near.now self.now.terminals self.now.winding (path_in chain places.old) n left) }
    {
        let length = chain.length;
        let unmet = bits::remaining(self.near[usize::from(chain.end)], chain.met);
        let Some(next) = self.next_member(unmet, n) else {
            return Walked::at(length, Scan::ShowingNone, left);
        };
        places[length] = next;
        let longer = chain.on_to(self.winding, next);
        let walked = self.enter(longer, left, places);
        let Scan::ShowingNone = walked.found else {
            return walked;
        };
        // The chain as it was, field by field: handed on whole, it would be copied through memory at each call.
        let again = Chain {
            length,
            end: chain.end,
            met: chain.met,
            beside: chain.beside,
        };
        self.try_next(again, next + 1, walked.left, places)
    }
}

// The first of the places as they are, the others 0.
fn shown(places: [u8; 64], length: usize) -> [u8; 64]
    requires { length ≤ most_terminals }
    ensures { result ≡ placed (take length places) }
{
    let mut terminals = places;
    terminals[length..].fill(0);
    terminals
}

// A verdict that shows no chain.
fn showing_none(finding: Finding, effort: u32) -> Verdict
    ensures { told_verdict result ≡ no_chain (told_finding finding) effort }
{
    Verdict {
        finding: Ok(finding),
        effort,
        length: 0,
        terminals: [0; PLACES],
    }
}

// The verdict that a walk from plus comes to, of which the allowance is given.
fn verdict(walked: Walked, places: [u8; 64], allowance: u32) -> Verdict
    requires length_few { walked.length ≤ most_terminals }
    requires left_within { LeftWithin (told_walked walked places) allowance }
    ensures { told_verdict result ≡ concluded (told_walked walked places) allowance }
{
    match walked.found {
        Scan::Showing => Verdict {
            finding: Ok(Finding::Live),
            effort: allowance - walked.left,
            length: walked.length,
            terminals: shown(places, walked.length),
        },
        Scan::ShowingNone => showing_none(Finding::Dead, allowance - walked.left),
        Scan::AllowanceSpent => showing_none(Finding::Undecided, allowance),
    }
}

// Judges the winding by a walk from plus.
pub fn from_plus(near: &[u64; 64], terminals: u8, winding: Winding, allowance: u32) -> Verdict
    requires { terminals ≤ most_terminals }
    ensures { told_verdict result ≡ verdict_by near.now terminals winding allowance }
{
    let walk = Walk {
        near,
        terminals,
        winding,
    };
    let chain = Chain::at_plus();
    let mut places = [0u8; 64];
    let walked = walk.enter(chain, allowance, &mut places);
    verdict(walked, places, allowance)
}
