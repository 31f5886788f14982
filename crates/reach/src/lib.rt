// The flood: which terminals are reached from a set of terminals over sets of neighbours, with a set of terminals taken
// out. Shunted windings are found by it (request A4), and terminals that divide a winding (request A6).
#![tactic(auto)]

ghost use Rattle.reach.specs.Floods.{Floods};

// The terminals reached from those of a set that are not taken out. Each that is seen is looked at once, the lowest
// first: its neighbours that are not taken out are seen then too.
pub fn flood(near: &[u64; 64], from: u64, out: u64) -> u64
    ensures { Floods near.now from out result }
{
    let mut seen = bits::remaining(from, out);
    let mut done = 0u64;
    while let Some(next) = bits::lowest_from(bits::remaining(seen, done), 0) {
        done = bits::with(done, next);
        seen = bits::together(seen, bits::remaining(near[next as usize], out));
    }
    seen
}
