// The state of a board: which relays are drawn and which buttons are pushed, and its methods.
#![tactic(auto)]

ghost use Rattle.state.specs.States.{StateFresh, StateDraws, StateDrops, StatePushes, StateReleases};
ghost use Rattle.state.specs.States.{StateIsDrawn, StateIsPushed, StateFits};

use board::{Board, Counts};

// The drawn relays and the pushed buttons, each a set in a word.
#[derive(Clone, Copy, Debug, PartialEq, Eq)]
pub struct State {
    pub drawn: u64,
    pub pushed: u64,
}

impl State {
    // A fresh state of a board: the relays of its start drawn, no button pushed.
    pub fn fresh(board: Board) -> Self
        ensures { StateFresh board result }
    {
        State {
            drawn: board.start,
            pushed: 0,
        }
    }

    // The state with a relay drawn.
    pub fn draw(self, relay: u32) -> Self
        ensures { StateDraws self relay result }
    {
        State {
            drawn: bits::with(self.drawn, relay),
            ..self
        }
    }

    // The state with a relay dropped.
    pub fn drop(self, relay: u32) -> Self
        ensures { StateDrops self relay result }
    {
        State {
            drawn: bits::without(self.drawn, relay),
            ..self
        }
    }

    // The state with a button pushed.
    pub fn push(self, button: u32) -> Self
        ensures { StatePushes self button result }
    {
        State {
            pushed: bits::with(self.pushed, button),
            ..self
        }
    }

    // The state with a button released.
    pub fn release(self, button: u32) -> Self
        ensures { StateReleases self button result }
    {
        State {
            pushed: bits::without(self.pushed, button),
            ..self
        }
    }

    // Whether a relay is drawn.
    pub fn is_drawn(self, relay: u32) -> bool
        ensures { StateIsDrawn self relay result }
    {
        bits::has(self.drawn, relay)
    }

    // Whether a button is pushed.
    pub fn is_pushed(self, button: u32) -> bool
        ensures { StateIsPushed self button result }
    {
        bits::has(self.pushed, button)
    }

    // Whether the state has no relay and no button that a board of these counts lacks; one that has is refused by 14.
    #[tactic(auto, unfolding(crate::specs::States::state_fine))]
    pub fn fits(self, counts: Counts) -> bool
        ensures { StateFits self counts result }
    {
        bits::all_below(self.drawn, u32::from(counts.relays))
            && bits::all_below(self.pushed, u32::from(counts.buttons))
    }
}
