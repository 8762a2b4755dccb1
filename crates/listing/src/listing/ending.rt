ghost use Rattle.std.specs.Prelude.{◌≡◌};
ghost use Rattle.calls.specs.Calls.{figures_said};
ghost use Rattle.calls.specs.Memories.{lower, upper, figures_at};
ghost use Rattle.listing.specs.Listings.{memory_of, pile_of, ranking_of, Called};

use super::Listing;
use crate::stopped::Stopped;
use calls::{Call, Figures};
use rankings::Ranking;
use structures::Structure;

impl<'a, S: Structure, R: Ranking> Listing<'a, S, R> {
    // The lower figure: the up sum in thousand-millionths of the total, rounded down.
    fn lower(&self) -> u64
        ensures { result ≡ lower (memory_of self.now) }
    {
        self.up / 1_000_000_000
    }

    // The upper figure: the total less the down sum in thousand-millionths of the total, rounded up.
    fn upper(&self) -> u64
        ensures { result ≡ upper (memory_of self.now) }
    {
        (1_000_000_000_000_000_000 - self.down).div_ceil(1_000_000_000)
    }

    // The figures as they are now.
    pub fn figures(&self) -> Figures
        ensures value { result ≡ figures_at (memory_of self.now) }
        ensures called { Called Call.Figures (figures_said result) self.now self.now }
    {
        Figures {
            lower: self.lower(),
            upper: self.upper(),
            handed: self.handed,
            waiting: self.queue.len() as u64,
        }
    }

    // Ends the listing, and gives back its pile, its ranking and its last figures.
    pub fn stop(self) -> Stopped<S, R>
        ensures pile { result.pile ≡ pile_of self.entry }
        ensures ranking { result.ranking ≡ ranking_of self.entry }
        ensures figures { result.figures ≡ figures_at (memory_of self.entry) }
    {
        let figures = self.figures();
        Stopped {
            pile: self.pile,
            ranking: self.queue.into_ranking(),
            figures,
        }
    }
}
