ghost use Rattle.std.specs.Prelude.{◌≡◌, [], MatchResult};
ghost use Rattle.listing.specs.Listings.{Opened};
ghost use Rattle.listing.specs.Queues.{waiting_in};

use super::Listing;
use crate::not_opened::NotOpened;
use crate::queue::Queue;
use rankings::Ranking;
use sheet::Sheet;
use states::State;
use std::alloc::Global;
use structures::Structure;

impl<'a, S: Structure, R: Ranking> Listing<'a, S, R> {
    // A listing of a queue in which nothing waits yet: the empty state does.
    fn begun(pile: S, mut queue: Queue<'a, R>) -> Listing<'a, S, R>
        requires { waiting_in queue ≡ [] }
        ensures { Opened queue.entry.sheet.now pile queue.entry.ranking result }
    {
        queue.insert(State::new(0));
        Listing {
            pile,
            queue,
            up: 0,
            down: 0,
            handed: 0,
        }
    }

    // Opens a listing: the empty state waits, and both sums are 0. All room is taken here, so that no later call can run out of
    // memory; want of it gives pile and ranking back.
    pub fn open(
        heap: Global,
        sheet: &'a Sheet,
        pile: S,
        ranking: R,
    ) -> Result<Listing<'a, S, R>, NotOpened<S, R>>
        ensures { MatchResult result (Opened sheet.now pile ranking) (λ back. (back.pile ≡ pile) × (back.ranking ≡ ranking)) }
    {
        // No `map_err`: the pile goes into the listing or back.
        match Queue::new(heap, sheet, ranking) {
            Ok(queue) => Ok(Listing::begun(pile, queue)),
            Err(ranking) => Err(NotOpened { pile, ranking }),
        }
    }
}
