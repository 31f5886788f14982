// Which windings and which marks the parts so far gave each relay: what refusals 8, 9 and 17 and a board's start go by.
#![tactic(auto)]

ghost use Rattle.std.specs.Prelude.{◌≡◌, not, ◌&&◌};
ghost use Rattle.bits.specs.Sets.{member};
ghost use Rattle.windings.specs.Windings.{wound, WoundNone, WoundFree, WoundUnmarked};
ghost use Rattle.windings.specs.Windings.{WoundWith, WoundComplete};

use kinds::Kind;

// The relays that have a part of kind 4, of kind 5, of kind 6 and of kind 7.
#[derive(Clone, Copy, Debug, PartialEq, Eq)]
pub struct WoundSoFar {
    pub regular: u64,
    pub drawing: u64,
    pub dropping: u64,
    pub marked: u64,
}

// Whether a relay is in neither set.
fn in_neither(x: u64, y: u64, relay: u8) -> bool
    ensures { result ≡ not (member x relay) && not (member y relay) }
{
    let n = u32::from(relay);
    !bits::has(x, n) && !bits::has(y, n)
}

impl WoundSoFar {
    // What no part gave: nothing.
    pub fn none() -> Self
        ensures { WoundNone result }
    {
        WoundSoFar {
            regular: 0,
            drawing: 0,
            dropping: 0,
            marked: 0,
        }
    }

    // Whether a part of this kind may come now (8): its relay does not have this winding yet, and is not of the
    // other sort.
    pub fn free(self, kind: Kind) -> bool
        ensures { WoundFree self kind result }
    {
        match kind {
            Kind::Regular(relay) => {
                !bits::has(self.regular, u32::from(relay))
                    && in_neither(self.drawing, self.dropping, relay)
            }
            Kind::Drawing(relay) => in_neither(self.regular, self.drawing, relay),
            Kind::Dropping(relay) => in_neither(self.regular, self.dropping, relay),
            Kind::Wire | Kind::Upper(_) | Kind::Lower(_) | Kind::Button(_) | Kind::Mark(_) => true,
        }
    }

    // Whether a part of this kind may come now (17): a mark may if its relay is not marked yet.
    pub fn unmarked(self, kind: Kind) -> bool
        ensures { WoundUnmarked self kind result }
    {
        match kind {
            Kind::Mark(relay) => !bits::has(self.marked, u32::from(relay)),
            _ => true,
        }
    }

    // The windings and marks once a part of this kind has come too.
    pub fn with(self, kind: Kind) -> Self
        ensures { WoundWith self kind result }
    {
        match kind {
            Kind::Regular(relay) => WoundSoFar {
                regular: bits::with(self.regular, u32::from(relay)),
                ..self
            },
            Kind::Drawing(relay) => WoundSoFar {
                drawing: bits::with(self.drawing, u32::from(relay)),
                ..self
            },
            Kind::Dropping(relay) => WoundSoFar {
                dropping: bits::with(self.dropping, u32::from(relay)),
                ..self
            },
            Kind::Mark(relay) => WoundSoFar {
                marked: bits::with(self.marked, u32::from(relay)),
                ..self
            },
            Kind::Wire | Kind::Upper(_) | Kind::Lower(_) | Kind::Button(_) => self,
        }
    }

    // Whether a relay lacks no winding: it has its regular one, or its drawing and its dropping one.
    fn wound(self, relay: u32) -> bool
        ensures { result ≡ wound self relay }
    {
        bits::has(self.regular, relay)
            || bits::has(self.drawing, relay) && bits::has(self.dropping, relay)
    }

    // Whether none of the relays 0 to R - 1 lacks a winding (9).
    pub fn complete(self, relays: u8) -> bool
        ensures { WoundComplete self relays result }
    {
        (0..u32::from(relays)).all(|relay| self.wound(relay))
    }
}
