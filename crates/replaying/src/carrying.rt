ghost use Rattle.std.specs.Prelude.{◌≡◌, MatchResult};
ghost use Rattle.calls.specs.Replies.{said_by};
ghost use Rattle.listing.specs.Listings.{SameStation, Called};
ghost use Rattle.replaying.specs.Replays.{Replays};

use crate::replayed::Replayed;
use calls::{Call, Replied, Reply};
use listing::{Listing, NotOpened};
use rankings::Ranking;
use sheet::Sheet;
use std::alloc::Global;
use structures::Structure;

// Makes a call. A `match` and no closure: calls are data here, given in a list.
fn make<'a, S: Structure, R: Ranking>(listing: &mut Listing<'a, S, R>, call: Call) -> Reply
    ensures station { SameStation listing.old listing.new }
    ensures called { Called call (said_by result) listing.old listing.new }
{
    match call {
        Call::Next => Reply::Next(listing.next()),
        Call::Run { target, budget } => Reply::Run(listing.run(target, budget)),
        Call::Figures => Reply::Figures(listing.figures()),
    }
}

// Opens a listing, makes these calls on it in turn, and gives all answers with the figures after each. Room for the answers is
// taken before the listing is opened: want of memory is answered only then, with pile and ranking handed back.
pub fn replay<S: Structure, R: Ranking>(
    heap: Global,
    sheet: &Sheet,
    pile: S,
    ranking: R,
    calls: &[Call],
) -> Result<Replayed<S, R>, NotOpened<S, R>>
    ensures { MatchResult result (Replays S.Structure.works R.Ranking.outranks sheet.now pile ranking calls.now) (λ back. (back.pile ≡ pile) × (back.ranking ≡ ranking)) }
{
    // No `map_err`: pile and ranking go into the listing or back.
    let Ok(mut replies) = Vec::with_capacity(heap, calls.len()) else {
        return Err(NotOpened { pile, ranking });
    };
    let mut listing = Listing::open(heap, sheet, pile, ranking)?;
    for call in calls {
        let reply = make(&mut listing, *call);
        let figures = listing.figures();
        replies.push_reserved(Replied { reply, figures });
    }
    let stopped = listing.stop();
    Ok(Replayed {
        pile: stopped.pile,
        ranking: stopped.ranking,
        replies,
    })
}
