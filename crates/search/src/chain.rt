// A chain on its way: what the walk knows of it and carries from terminal to terminal, by value. Its terminals stand in
// places that the walk is lent.
ghost use Rattle.std.specs.Prelude.{◌≡◌, ◌&&◌, ◌<◌, eqb};
ghost use Rattle.board.specs.Rules.{most_terminals};
ghost use Rattle.chains.specs.ChainList.{crosses};
ghost use Rattle.search.specs.Walks.{at_plus, gone};

use crate::Winding;

// Terminal 0.
const PLUS: u8 = 0;

// How many terminals it has, the one it ends at, the set of them, and whether the winding's ends stand in it side by
// side.
#[derive(Clone, Copy)]
pub struct Chain {
    pub length: usize,
    pub end: u8,
    pub met: u64,
    pub beside: bool,
}

// Whether the step from x to y is the step from a to b.
fn is_step(x: u8, y: u8, a: u8, b: u8) -> bool
    ensures { result ≡ eqb x a && eqb y b }
{
    x == a && y == b
}

// Whether the step from x to y goes from one end of the winding to the other.
fn crosses(winding: Winding, x: u8, y: u8) -> bool
    ensures { result ≡ crosses winding.a winding.b x y }
{
    is_step(x, y, winding.a, winding.b) || is_step(x, y, winding.b, winding.a)
}

impl Chain {
    // The chain of plus alone.
    pub fn at_plus() -> Self
        ensures { result ≡ at_plus }
    {
        Chain {
            length: 1,
            end: PLUS,
            met: bits::with(0, 0),
            beside: false,
        }
    }

    // The chain gone on to the terminal n.
    pub fn on_to(self, winding: Winding, n: u8) -> Self
        requires { self.length < most_terminals }
        ensures { result ≡ gone winding self n }
    {
        Chain {
            length: self.length + 1,
            end: n,
            met: bits::with(self.met, u32::from(n)),
            beside: self.beside || crosses(winding, self.end, n),
        }
    }
}
