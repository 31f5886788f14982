// The figures of one run, and of some runs with others after them.
ghost use Rattle.std.specs.Prelude.{◌≡◌, ◌^◌};
ghost use Rattle.report.specs.BothWays.{one_run, followed, Within, OneRun, Followed};

use crate::Figures;
use refusals::Refusal;
use runs::Ending;

impl Figures {
    // The figures of one run, by the word that it ended with and its moves. A refused one is counted by no word.
    #[tactic(auto, unfolding(crate::specs::BothWays::one_run))]
    pub fn one_run(word: Result<Ending, Refusal>, moves: usize) -> Self
        ensures { OneRun word moves result }
    {
        let one = Figures {
            settings: 1,
            moves,
            most: moves,
            ..Figures::default()
        };
        match word {
            Ok(Ending::Idle) => Figures { idle: 1, ..one },
            Ok(Ending::Buzz) => Figures { buzz: 1, ..one },
            Ok(Ending::Conflict) => Figures { conflict: 1, ..one },
            Ok(Ending::Spent) => Figures { spent: 1, ..one },
            Err(_) => one,
        }
    }

    // The figures of some runs with others after them. The most moves are those of the others, and the first setting
    // that has so many is one of theirs, only where they are more. A sum that is more than a figure can be is the most
    // that one can be; no report comes near to that.
    #[tactic(auto, unfolding(crate::specs::BothWays::followed))]
    pub fn followed(self, others: Self) -> Self
        ensures { Followed self others result }
    {
        Figures {
            settings: self.settings.saturating_add(others.settings),
            idle: self.idle.saturating_add(others.idle),
            buzz: self.buzz.saturating_add(others.buzz),
            conflict: self.conflict.saturating_add(others.conflict),
            spent: self.spent.saturating_add(others.spent),
            moves: self.moves.saturating_add(others.moves),
            most: self.most.max(others.most),
            first: if others.most <= self.most {
                self.first
            } else {
                self.settings.saturating_add(others.first)
            },
        }
    }

    // The same, of figures that are so small that no sum is too large.
    pub(crate) fn followed_within(self, others: Self) -> Self
        requires some_within { Within (2 ^ 32) self }
        requires others_within { Within (2 ^ 32) others }
        ensures { result ≡ followed self others }
    {
        let both = Figures {
            settings: self.settings + others.settings,
            idle: self.idle + others.idle,
            buzz: self.buzz + others.buzz,
            conflict: self.conflict + others.conflict,
            spent: self.spent + others.spent,
            moves: self.moves + others.moves,
            ..self
        };
        if self.most < others.most {
            Figures {
                most: others.most,
                first: self.settings + others.first,
                ..both
            }
        } else {
            both
        }
    }
}
