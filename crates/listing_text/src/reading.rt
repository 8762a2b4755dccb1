ghost use Rattle.std.specs.Prelude.{◌≡◌, [], IfOk, string_bytes};
ghost use Rattle.sheet.specs.Parts.{drafted};
ghost use Rattle.structures.specs.Paths.{paths_of, paths_refused};
ghost use Rattle.sheet_reading.specs.Readings.{Exact as OneMeaning};
ghost use Rattle.listing_text.specs.Outputs.{Lists, ListsText};
ghost use Rattle.listing_text.specs.Stations.{station_with};

use crate::refusing::refusal_line;
use crate::stepping::list_station;
use rankings::Exact;
use sheet::{Draft, PartNumber};
use sheet_reading::read;
use std::alloc::{AllocError, Global};
use structures::{Feed, Layer, PathList, PathListError};

// The list of these paths, of which none is refused: so the only error is want of memory.
fn path_list(heap: Global, paths: &[u64]) -> Result<PathList, AllocError>
    requires { paths_refused paths.now ≡ [] }
    ensures { IfOk result (λ list. paths_of list ≡ paths.now) }
{
    PathList::new(heap, paths).map_err(|error| match error {
        PathListError::OutOfMemory => AllocError,
        _ => unreachable!(),
    })
}

// Lists a station of these parts, whose paths work under its feed, by the exact ranking.
fn list_parts(
    heap: Global,
    draft: Draft,
    paths: &[u64],
    feed: PartNumber,
    most: u64,
) -> Result<String, AllocError>
    requires { paths_refused paths.now ≡ [] }
    ensures { IfOk result (λ out. Lists (station_with (drafted draft) paths.now feed.number) most (string_bytes out)) }
{
    let list = path_list(heap, paths)?;
    let pile = Layer::new(feed, Feed, list);
    list_station(heap, &draft.seal(), pile, Exact, most)
}

// Reads a sheet's text and lists at most so many states of its station; or gives the line of the text's fault. Want of memory is
// the only error.
pub fn list_text(heap: Global, text: &[u8], most: u64) -> Result<String, AllocError>
    ensures lists { IfOk result (λ out. ListsText most text.now (string_bytes out)) }
    ensures exact { OneMeaning 256 text.now }
{
    let mut draft = Draft::new(heap);
    let mut paths = [0; PathList::MOST];
    match read(heap, text, &mut draft, &mut paths) {
        Ok(found) => list_parts(heap, draft, &paths[..found.path_count], found.feed, most),
        Err(fault) => refusal_line(heap, fault),
    }
}
