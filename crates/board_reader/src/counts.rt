// Reading the counts of a board file: T, R, B and C.
ghost use Rattle.std.specs.Prelude.{◌≡◌};
ghost use Rattle.refusals.specs.Outcomes.{told};
ghost use Rattle.refusals.specs.Refusals.{out_of_range};
ghost use Rattle.board.specs.Rules.{in_range};
ghost use Rattle.board_reader.specs.Editions.{current_edition};
ghost use Rattle.board_reader.specs.Reading.{wanted, counts_at};

use crate::fields;
use board::Counts;
use refusals::{Found, No, Refusal};

// The count at a place, refused by 3 there unless it is from low to high.
#[tactic(auto, unfolding(crate::specs::Reading::wanted, board::specs::Rules::in_range))]
fn read_count(s: &[u8], at: usize, low: u32, high: u32) -> Result<Found<u32>, Refusal>
    ensures { told result ≡ wanted current_edition (in_range low high) out_of_range s.now at }
{
    fields::read_wanted(s, at, |count| (low..=high).contains(&count), No::OutOfRange)
}

// T, R, B and C at the start of the input.
#[tactic(auto, unfolding(crate::specs::Reading::counts_at))]
pub fn read_counts(s: &[u8]) -> Result<Found<Counts>, Refusal>
    ensures { told result ≡ counts_at current_edition s.now }
{
    let read = read_count(
        s,
        0,
        u32::from(board::LEAST_TERMINALS),
        u32::from(board::MOST_TERMINALS),
    );
    let Ok(terminals) = read else {
        return Err(read.unwrap_err());
    };
    let read = read_count(s, terminals.next, 0, u32::from(board::MOST_RELAYS));
    let Ok(relays) = read else {
        return Err(read.unwrap_err());
    };
    let read = read_count(s, relays.next, 0, u32::from(board::MOST_BUTTONS));
    let Ok(buttons) = read else {
        return Err(read.unwrap_err());
    };
    let read = read_count(s, buttons.next, 0, board::MOST_PARTS as u32);
    let Ok(parts) = read else {
        return Err(read.unwrap_err());
    };
    let counts = Counts {
        terminals: terminals.value as u8,
        relays: relays.value as u8,
        buttons: buttons.value as u8,
        parts: parts.value as usize,
    };
    Ok(Found {
        value: counts,
        next: parts.next,
    })
}
