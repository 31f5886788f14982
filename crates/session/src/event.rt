// The event at a place of a session's input.
ghost use Rattle.std.specs.Prelude.{◌≡◌};
ghost use Rattle.refusals.specs.Outcomes.{told};
ghost use Rattle.board_reader.specs.Editions.{current_edition};
ghost use Rattle.events.specs.Events.{event_at};

use events::Event;
use refusals::{Found, No, Refusal};

// Reads the event at a place: a number (1, 2) that names one of the buttons (7): 2 x button + 1 pushes, 2 x button
// releases.
#[tactic(auto, unfolding(events::specs::Events::event_at, board_reader::specs::Reading::wanted))]
pub fn event_at(buttons: u8, s: &[u8], at: usize) -> Result<Found<Event>, Refusal>
    ensures { told result ≡ event_at current_edition buttons s.now at }
{
    let number = number::read_number(s, at)?;
    if u32::from(buttons) <= number.value / 2 {
        return Err(Refusal {
            no: No::NoSuchName,
            place: at,
        });
    }
    Ok(Found {
        value: Event::from(number.value),
        next: number.next,
    })
}
