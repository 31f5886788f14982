// What a look at the relays of a board works out once for a state (request A6): which terminals are served, and which
// are linked without windings. By these a winding is live or not at a glance.
#![tactic(auto)]

ghost use Rattle.std.specs.Prelude.{◌≡◌, ◌+◌, ◌<◌};
ghost use Rattle.bits.specs.Sets.{room};
ghost use Rattle.reach.specs.Floods.{flooded};
ghost use Rattle.feed.specs.Feeds.{everywhere, alone, served_on, served, linked, shunted_by, LowerKnown};
ghost use Rattle.feed.specs.Feeds.{ReachedWithout, Feeds, LiveBy};

use board::MOST_TERMINALS;
use neighbours::{EVERYWHERE, Sets};
use search::Winding;

// Plus and minus, as a set.
const POLES: u64 = 3;

// The terminals that are served, and for each terminal those that are linked to it without a winding.
#[derive(Clone, Copy)]
pub struct Feed {
    pub served: u64,
    pub linked: [u64; 64],
}

// The terminals that some remaining pole reaches, with this one taken out.
pub fn reached_without(near: &[u64; 64], x: u32) -> u64
    ensures { ReachedWithout near.now x result }
{
    reach::flood(near, POLES, bits::with(0, x))
}

// The terminals served so far, each below this one having been taken out, less those that are lost without this one. It
// is not taken out where it is not served itself: what it would cut off, the one that cuts it off has cut off already.
fn served_without(near: &[u64; 64], served: u64, x: u32) -> u64
    requires x_in_room { x < room }
    requires served_so_far { served ≡ served_on near.now x 0 everywhere }
    ensures { result ≡ served_on near.now (x + 1) 0 everywhere }
{
    if bits::has(served, x) {
        let lost = bits::remaining(served, reached_without(near, x));
        bits::remaining(served, bits::without(lost, x))
    } else {
        served
    }
}

// The terminals that some remaining pole reaches, whichever other one of so many is taken out.
fn served(near: &[u64; 64], terminals: u8) -> u64
    ensures { result ≡ served near.now terminals }
{
    let mut served = EVERYWHERE;
    for x in 0..terminals.min(MOST_TERMINALS) {
        served = served_without(near, served, u32::from(x));
    }
    served
}

// The terminals that are linked to this one, where those of the lower ones are known. Where the lowest terminal that it
// is joined to has it among those linked to it, the two have the same.
fn linked_to(bare: &[u64; 64], linked: &[u64; 64], x: u32) -> u64
    requires x_in_room { x < room }
    requires lower_known { LowerKnown bare.now linked.now x }
    ensures { result ≡ flooded bare.now (alone x) 0 }
{
    match bits::lowest_from(bare[x as usize], 0) {
        Some(lowest) if lowest < x && bits::has(linked[lowest as usize], x) =>
            linked[lowest as usize],
        _ => reach::flood(bare, bits::with(0, x), 0),
    }
}

// For each of so many terminals those that are linked to it.
fn linked(bare: &[u64; 64], terminals: u8) -> [u64; 64]
    ensures { result ≡ linked bare.now terminals }
{
    let mut linked = [0; 64];
    for x in 0..terminals.min(MOST_TERMINALS) {
        linked[usize::from(x)] = linked_to(bare, &linked, u32::from(x));
    }
    linked
}

// What a look works out, by the sets of neighbours of so many terminals.
pub fn feed_by(sets: Sets, terminals: u8) -> Feed
    ensures { Feeds sets terminals result }
{
    let served = served(&sets.near, terminals);
    let linked = linked(&sets.bare, terminals);
    Feed { served, linked }
}

// Whether the ends of a winding are linked, so that it is shunted.
#[tactic(auto, unfolding(crate::specs::Feeds::shunted_by))]
fn is_linked(linked: &[u64; 64], winding: Winding) -> bool
    ensures { result ≡ shunted_by linked.now winding }
{
    winding.a < MOST_TERMINALS && bits::has(linked[usize::from(winding.a)], u32::from(winding.b))
}

impl Feed {
    // Whether a winding is live: it is not shunted, and both its ends are served.
    #[tactic(auto, unfolding(crate::specs::Feeds::live_by))]
    pub fn is_live(&self, winding: Winding) -> bool
        ensures { LiveBy self.now winding result }
    {
        !is_linked(&self.linked, winding)
            && bits::has(self.served, u32::from(winding.a))
            && bits::has(self.served, u32::from(winding.b))
    }
}
