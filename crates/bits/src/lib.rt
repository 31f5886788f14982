// Sets of the numbers 0 to 63, a bit of a word each: n is a member exactly if bit n is set.
#![tactic(auto)]

ghost use Rattle.bits.specs.Sets.{SetHas, SetWith, SetWithout, SetRemaining, SetTogether, SetLowestFrom};
ghost use Rattle.bits.specs.Sets.{SetAllBelow, SetFlipped};

// How many numbers a word has room for.
pub const ROOM: u32 = 64;

// Whether n is a member.
pub fn has(set: u64, n: u32) -> bool
    ensures { SetHas set n result }
{
    n < ROOM && (set >> n) % 2 == 1
}

// The set with n as a member besides; as it is where a word has no room for n.
pub fn with(set: u64, n: u32) -> u64
    ensures { SetWith set n result }
{
    if n < ROOM { set | (1 << n) } else { set }
}

// The set without n.
pub fn without(set: u64, n: u32) -> u64
    ensures { SetWithout set n result }
{
    if has(set, n) { set ^ (1 << n) } else { set }
}

// The set with n as a member if it is none, and else without it; as it is where a word has no room for n.
pub fn flip(set: u64, n: u32) -> u64
    ensures { SetFlipped set n result }
{
    if n < ROOM { set ^ (1 << n) } else { set }
}

// The members of a set that are not in another.
pub fn remaining(set: u64, taken: u64) -> u64
    ensures { SetRemaining set taken result }
{
    set ^ (set & taken)
}

// The members of either set.
pub fn together(set: u64, other: u64) -> u64
    ensures { SetTogether set other result }
{
    set | other
}

// The lowest member from n up, if there is one.
pub fn lowest_from(set: u64, n: u32) -> Option<u32>
    ensures { SetLowestFrom set n result }
{
    if ROOM <= n {
        return None;
    }
    let lowest = n + u64::trailing_zeros(set >> n);
    if lowest < ROOM { Some(lowest) } else { None }
}

// Whether every member is below n.
pub fn all_below(set: u64, n: u32) -> bool
    ensures { SetAllBelow set n result }
{
    ROOM <= n || set >> n == 0
}
