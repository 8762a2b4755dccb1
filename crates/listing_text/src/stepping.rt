ghost use Rattle.std.specs.Prelude.{◌≡◌, [], MatchResult, IfOk, OnOk, string_bytes};
ghost use Rattle.calls.specs.Stations.{station};
ghost use Rattle.listing.specs.Listings.{station_of, SameStation, LeftBy, Opened};
ghost use Rattle.listing_text.specs.Outputs.{Lists};
ghost use Rattle.listing_text.specs.Rows.{header};
ghost use Rattle.listing_text.specs.Steps.{HandsOn, Steps, Stops};

use crate::rows::{headed, write_end, write_row};
use crate::step::Step;
use calls::{Ending, Handed};
use listing::Listing;
use rankings::Ranking;
use sheet::Sheet;
use std::alloc::{AllocError, Global};
use structures::Structure;

// The next state to list, or how the listing ends: nothing waits, or as many states as allowed were listed, or next refuses.
fn next_state<S: Structure, R: Ranking>(
    listing: &mut Listing<'_, S, R>,
    most: u64,
) -> Result<Handed, Ending>
    ensures station { SameStation listing.old listing.new }
    ensures state { MatchResult result (λ handed. HandsOn most listing.old handed listing.new) (λ ending. Stops most listing.old ending listing.new) }
{
    let before = listing.figures();
    if before.waiting > 0 && before.handed >= most {
        return Err(Ending::Spent);
    }
    listing
        .next()
        .map_err(|_full| Ending::Full)?
        .ok_or(Ending::Finished)
}

// The next step, or how the listing ends.
fn next_step<S: Structure, R: Ranking>(
    listing: &mut Listing<'_, S, R>,
    most: u64,
) -> Result<Step, Ending>
    ensures station { SameStation listing.old listing.new }
    ensures step { MatchResult result (λ step. Steps most listing.old step listing.new) (λ ending. Stops most listing.old ending listing.new) }
{
    let handed = next_state(listing, most)?;
    let figures = listing.figures();
    Ok(Step { handed, figures })
}

// Lists at most so many states of a listing that was opened: writes a line for each, and one for how it ended.
fn list_steps<S: Structure, R: Ranking>(
    listing: &mut Listing<'_, S, R>,
    most: u64,
    out: &mut String,
) -> Result<(), AllocError>
    requires opened { LeftBy [] listing.old }
    requires headed { string_bytes out.old ≡ header }
    ensures { OnOk result (Lists (station_of listing.old) most (string_bytes out.new)) }
{
    let ending = loop {
        match next_step(listing, most) {
            Ok(step) => write_row(out, step)?,
            Err(ending) => break ending,
        }
    };
    write_end(out, ending)
}

// Opens a listing; pile and ranking are let go where memory is wanting.
fn opened<'a, S: Structure + Drop, R: Ranking + Drop>(
    heap: Global,
    sheet: &'a Sheet,
    pile: S,
    ranking: R,
) -> Result<Listing<'a, S, R>, AllocError>
    ensures { IfOk result (Opened sheet.now pile ranking) }
{
    Listing::open(heap, sheet, pile, ranking).map_err(|_not_opened| AllocError)
}

// Lists at most so many states of a station: a line for each, with the figures after it, and a last one for how the listing ended.
#[tactic(auto, using(crate::proofs::Listing::opened_lists))]
pub fn list_station<S: Structure + Drop, R: Ranking + Drop>(
    heap: Global,
    sheet: &Sheet,
    pile: S,
    ranking: R,
    most: u64,
) -> Result<String, AllocError>
    ensures { IfOk result (λ out. Lists (station sheet.now (S.Structure.works pile) (R.Ranking.outranks ranking sheet.now)) most (string_bytes out)) }
{
    let mut out = headed(heap)?;
    let mut listing = opened(heap, sheet, pile, ranking)?;
    list_steps(&mut listing, most, &mut out)?;
    Ok(out)
}
