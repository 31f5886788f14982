// The front page: the user's three demands and the requests A9 and A10 as theorems over the public calls, the starred
// boards as one table, and that every promise allows one answer only. There is no code here: each function is the name
// of a theorem in the check's verdict, and its contract the statement; specs/ has the statements, proofs/ the theorems.
#![tactic(auto)]

ghost use Rattle.std.specs.Prelude.{ℕ, ◌<◌, Bool};
ghost use Rattle.bits.specs.Sets.{WideByte};
ghost use Rattle.demands.specs.AsTheModelSays.{AsTheModelSays};
ghost use Rattle.demands.specs.EveryCallComesBack.{EveryCallComesBack};
ghost use Rattle.demands.specs.InAnyOrder.{InAnyOrder};
ghost use Rattle.demands.specs.LargerNeverChanges.{LargerNeverChanges};
ghost use Rattle.demands.specs.OneAnswer.{One};
ghost use Rattle.demands.specs.Starred.{Starred};
ghost use Rattle.demands.specs.WhateverIsPushed.{WhateverIsPushed};
ghost use Rattle.refusals.specs.Order.{AsksLine};

// Demand 1.
pub fn every_call_comes_back()
    ensures { EveryCallComesBack }
{}

// The line `bits_wide` of demand 1 holds the code: what std promises of `u32::from` of a byte, by which each call
// widens one, is that line's promise.
pub fn bytes_are_widened()
    ensures { (x y : ℕ) → x < 256 → ⟦<u32 as From<u8>>⟧.from_gives x y → WideByte x y }
{}

// The line `refusals_unless` of demand 1, whatever is said where the test does not hold.
pub fn any_line_is_one_answer<E: Drop>()
    ensures { (t : Bool) (e : E) → One (AsksLine t e) }
{}

// Demand 2.
pub fn as_the_model_says()
    ensures { AsTheModelSays }
{}

// Demand 3.
pub fn larger_never_changes()
    ensures { LargerNeverChanges }
{}

// The rule book's boards to try.
pub fn starred_boards()
    ensures { Starred }
{}

// Request A9.
pub fn in_any_order()
    ensures { InAnyOrder }
{}

// Request A10.
pub fn whatever_is_pushed()
    ensures { WhateverIsPushed }
{}
