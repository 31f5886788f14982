// One row of sets, changed in place.
ghost use Rattle.std.specs.Prelude.{◌≡◌, true, length};
ghost use Rattle.board.specs.Rules.{most_terminals};
ghost use Rattle.neighbours.specs.Neighbours.{with_other, with_part};
ghost use Rattle.neighbours.specs.Rows.{EachSet, among, only_at, without};

use crate::PLACES;
use board::{MOST_TERMINALS, Part};

// A row of sets, one for each of 64 terminals.
#[derive(Drop)]
pub struct Row {
    pub sets: [u64; PLACES],
    pub ghost whole: { length sets ≡ most_terminals },
}

impl Row {
    // Parts these terminals from each other: the set of each of them loses those of them that it has.
    pub fn clear(&mut self, at: u64)
        ensures { EachSet self.old.sets self.new.sets (only_at at (without at)) }
    {
        let mut next = bits::lowest_from(at, 0);
        while let Some(x) = next {
            let place = x as usize;
            self.sets[place] = bits::remaining(self.sets[place], at);
            next = bits::lowest_from(at, x + 1);
        }
    }

    // Joins y to x besides; the sets stay as they are where they have no place for x.
    fn join(&mut self, x: u8, y: u8)
        ensures { EachSet self.old.sets self.new.sets (with_other x y) }
    {
        if x < MOST_TERMINALS {
            let place = usize::from(x);
            self.sets[place] = bits::with(self.sets[place], u32::from(y));
        }
    }

    // Joins the ends of a part besides, in both directions.
    pub fn bridge(&mut self, part: Part)
        ensures { EachSet self.old.sets self.new.sets (with_part true part) }
    {
        self.join(part.a, part.b);
        self.join(part.b, part.a);
    }
}

// Whether both ends of a part are among these terminals.
pub fn is_among(part: Part, at: u64) -> bool
    ensures { result ≡ among at part }
{
    bits::has(at, u32::from(part.a)) && bits::has(at, u32::from(part.b))
}
