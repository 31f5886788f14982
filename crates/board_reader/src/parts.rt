// Reading the parts of a board file: one part field by field, and all of them one after the other.
ghost use Rattle.std.specs.Prelude.{◌≡◌, ◌≤◌};
ghost use Rattle.refusals.specs.Outcomes.{told};
ghost use Rattle.refusals.specs.Refusals.{no_such_kind, no_such_terminal};
ghost use Rattle.kinds.specs.Kinds.{last_kind};
ghost use Rattle.board.specs.Parts.{most_parts};
ghost use Rattle.board.specs.Rules.{in_range, terminal_fine};
ghost use Rattle.board_reader.specs.Editions.{current_edition};
ghost use Rattle.board_reader.specs.Reading.{wanted, name_at, ends_at, part_at, parts_at};
ghost use Rattle.board_reader.specs.Rows.{row_from};

use crate::fields;
use board::{Counts, Part};
use kinds::Kind;
use refusals::{Found, No, Refusal};
use windings::WoundSoFar;

// A row of parts, the places past them blank, and the windings and marks after it.
#[derive(Clone, Copy)]
pub struct Row {
    pub parts: [Part; 256],
    pub windings: WoundSoFar,
}

// The kind number at a place, refused by 4 there if it is above the last.
#[tactic(auto, unfolding(crate::specs::Reading::wanted, board::specs::Rules::in_range))]
fn read_kind(s: &[u8], at: usize) -> Result<Found<u32>, Refusal>
    ensures { told result ≡ wanted current_edition (in_range 0 last_kind) no_such_kind s.now at }
{
    fields::read_wanted(s, at, |kind| kind <= kinds::LAST_KIND, No::NoSuchKind)
}

// The terminal at a place, refused by 5 there unless it is below T.
#[tactic(auto, unfolding(crate::specs::Reading::wanted))]
fn read_terminal(s: &[u8], at: usize, counts: Counts) -> Result<Found<u32>, Refusal>
    ensures { told result ≡ wanted current_edition (terminal_fine counts) no_such_terminal s.now at }
{
    let limit = u32::from(counts.terminals);
    fields::read_wanted(s, at, |terminal| terminal < limit, No::NoSuchTerminal)
}

// The relay or button of a part of this kind number, refused by 7 unless it is there; a wire has none.
#[tactic(auto, unfolding(crate::specs::Reading::name_at, crate::specs::Reading::wanted))]
fn read_name(s: &[u8], at: usize, counts: Counts, kind: u32) -> Result<Found<u32>, Refusal>
    ensures { told result ≡ name_at current_edition counts kind s.now at }
{
    if kind == kinds::WIRE_KIND {
        return Ok(Found { value: 0, next: at });
    }
    let limit = u32::from(board::limit(counts, kind));
    fields::read_wanted(s, at, |name| name < limit, No::NoSuchName)
}

// The ends of a part of this kind number; a mark has none, and 0 stands in their place.
#[tactic(auto, unfolding(crate::specs::Reading::ends_at))]
fn read_ends(s: &[u8], at: usize, counts: Counts, kind: u32) -> Result<Found<(u8, u8)>, Refusal>
    ensures { told result ≡ ends_at current_edition counts kind s.now at }
{
    if kind == kinds::MARK_KIND {
        return Ok(Found {
            value: (0, 0),
            next: at,
        });
    }
    let read = read_terminal(s, at, counts);
    let Ok(a) = read else {
        return Err(read.unwrap_err());
    };
    let read = read_terminal(s, a.next, counts);
    let Ok(b) = read else {
        return Err(read.unwrap_err());
    };
    if a.value == b.value {
        return fields::refuse(No::EndsEqual, a.next);
    }
    Ok(Found {
        value: (a.value as u8, b.value as u8),
        next: b.next,
    })
}

// The part at a place, after parts that gave these windings and marks.
#[tactic(auto, unfolding(crate::specs::Reading::part_at))]
fn read_part(
    s: &[u8],
    at: usize,
    counts: Counts,
    windings: WoundSoFar,
) -> Result<Found<Part>, Refusal>
    ensures { told result ≡ part_at current_edition counts windings s.now at }
{
    let read = read_kind(s, at);
    let Ok(number) = read else {
        return Err(read.unwrap_err());
    };
    let read = read_ends(s, number.next, counts, number.value);
    let Ok(ends) = read else {
        return Err(read.unwrap_err());
    };
    let read = read_name(s, ends.next, counts, number.value);
    let Ok(name) = read else {
        return Err(read.unwrap_err());
    };
    let kind = Kind::of(number.value, name.value as u8);
    if !windings.free(kind) {
        return fields::refuse(No::WindingTaken, ends.next);
    }
    if !windings.unmarked(kind) {
        return fields::refuse(No::MarkedTwice, ends.next);
    }
    let (a, b) = ends.value;
    Ok(Found {
        value: Part { a, b, kind },
        next: name.next,
    })
}

// The first C parts from a place on, after parts that gave these windings and marks.
pub fn read_parts(
    s: &[u8],
    start: usize,
    counts: Counts,
    windings: WoundSoFar,
) -> Result<Found<Row>, Refusal>
    requires { counts.parts ≤ most_parts }
    ensures { told result
        ≡ row_from windings (parts_at current_edition counts counts.parts windings s.now start) }
{
    let mut row = Row {
        parts: [board::blank(); 256],
        windings,
    };
    let mut at = start;
    for i in 0..counts.parts {
        let read = read_part(s, at, counts, row.windings);
        let Ok(part) = read else {
            return Err(read.unwrap_err());
        };
        row.parts[i] = part.value;
        row.windings = row.windings.with(part.value.kind);
        at = part.next;
    }
    Ok(Found {
        value: row,
        next: at,
    })
}
