ghost use Rattle.std.specs.Prelude.{◌≤◌, length, take};
ghost use Rattle.sheet.specs.Parts.{parts_of, drafted};
ghost use Rattle.sheet_reading.specs.Readings.{Reads};
ghost use Rattle.round_trips.specs.Trips.{content_of, SheetComesBack};

use crate::trip_error::TripError;
use sheet::{Draft, PartNumber, Sheet};
use sheet_lines::Fault;
use sheet_reading::{Found, read};
use sheet_writing::write;
use std::alloc::Global;

// Reads the first bytes of a buffer, so many of them, into the draft and the list.
fn read_front(
    heap: Global,
    buffer: &[u8],
    count: usize,
    draft: &mut Draft,
    list: &mut [u64],
) -> Result<Found, Fault>
    requires { count ≤ length buffer.now }
    ensures { Reads (take count buffer.now) (drafted draft.old) list.old result (drafted draft.new) list.new }
{
    read(heap, &buffer[..count], draft, list)
}

// Writes a sheet, its paths and its feed part into the buffer, and reads them back into the draft and the list.
pub fn write_and_read(
    heap: Global,
    sheet: &Sheet,
    paths: &[u64],
    feed: PartNumber,
    buffer: &mut [u8],
    draft: &mut Draft,
    list: &mut [u64],
) -> Result<Found, TripError>
    ensures { SheetComesBack (content_of (parts_of sheet.now) paths.now feed.number) buffer.old (drafted draft.old) list.old result buffer.new (drafted draft.new) list.new }
{
    let count = write(sheet, paths, feed, buffer)?;
    Ok(read_front(heap, buffer, count, draft, list)?)
}
