// Looking back over a run's log for the state that it has come to. No state is kept: each move turned one relay. So
// that a long run need not look back after every move, each state that it comes through cuts a notch; where there is no
// notch at the place of the drawn relays, they were not drawn before.
ghost use Rattle.std.specs.Prelude.{◌≡◌, ◌≤◌, ◌<◌, length};
ghost use Rattle.runs.specs.LookingBack.{back_from, ago_of, most_words, notch_place, has_notch, with_notch, Spares};

use crate::DRAW_MARK;

// How many notches a word has room for.
const NOTCHES_IN_WORD: usize = 64;

// Notches in some words, and no more than the most.
#[derive(Drop)]
pub struct Notches<const WORDS: usize> {
    pub words: [u64; WORDS],
    pub ghost some: { 0 < length words },
    pub ghost few: { length words ≤ most_words },
}

impl<const WORDS: usize> Notches<WORDS> {
    // The place of drawn relays among the notches that the words have room for, the last left out.
    #[tactic(auto, unfolding(crate::specs::LookingBack::notch_place))]
    fn place(&self, drawn: u64) -> usize
        ensures { result ≡ notch_place (length self.now.words) drawn }
    {
        drawn as usize % (NOTCHES_IN_WORD * self.words.len() - 1)
    }

    // Whether there is a notch at the place of drawn relays.
    fn has(&self, drawn: u64) -> bool
        ensures { result ≡ has_notch self.now.words drawn }
    {
        let at = self.place(drawn);
        bits::has(
            self.words[at / NOTCHES_IN_WORD],
            (at % NOTCHES_IN_WORD) as u32,
        )
    }

    // Cuts a notch at the place of drawn relays.
    fn cut(&mut self, drawn: u64)
        ensures { self.new.words ≡ with_notch self.old.words drawn }
    {
        let at = self.place(drawn);
        let word = at / NOTCHES_IN_WORD;
        self.words[word] = bits::with(self.words[word], (at % NOTCHES_IN_WORD) as u32);
    }

    // How many moves ago these relays were drawn, and no others, if they were before: it looks back only where there
    // is a notch; and cuts one.
    pub fn look_back(&mut self, log: &[u8], moves: usize, drawn: u64) -> Option<usize>
        requires moves_logged { moves ≤ length log.now }
        requires spares { Spares self.old.words log.now moves drawn }
        ensures looked_back { result ≡ ago_of (back_from log.now moves drawn moves drawn) }
        ensures notched { self.new.words ≡ with_notch self.old.words drawn }
    {
        let known = self.has(drawn);
        self.cut(drawn);
        if known {
            met_ago(log, moves, drawn)
        } else {
            None
        }
    }
}

// How many moves ago these relays were drawn, and no others, if they were before.
fn met_ago(log: &[u8], moves: usize, drawn: u64) -> Option<usize>
    requires { moves ≤ length log.now }
    ensures { result ≡ ago_of (back_from log.now moves drawn moves drawn) }
{
    let mut was = drawn;
    for i in (0..moves).rev() {
        was = bits::flip(was, u32::from(log[i] % DRAW_MARK));
        if was == drawn {
            return Some(moves - i);
        }
    }
    None
}
