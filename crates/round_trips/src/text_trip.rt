ghost use Rattle.std.specs.Prelude.{◌≤◌, length, take};
ghost use Rattle.sheet.specs.Parts.{parts_of};
ghost use Rattle.sheet_writing.specs.Writing.{Written};
ghost use Rattle.round_trips.specs.Trips.{TextComesBack};

use crate::trip_error::TripError;
use sheet::{Draft, Sheet};
use sheet_reading::{Found, read};
use sheet_writing::{WriteError, write};
use std::alloc::Global;

// Writes a sheet with what was found beside its parts, of which the paths are the first entries of the list.
fn write_found(
    sheet: &Sheet,
    found: Found,
    list: &[u64],
    buffer: &mut [u8],
) -> Result<usize, WriteError>
    requires { found.path_count ≤ length list.now }
    ensures { Written (parts_of sheet.now) (take found.path_count list.now) found.feed.number buffer.old result buffer.new }
{
    write(sheet, &list[..found.path_count], found.feed, buffer)
}

// Reads a text into the draft and the list, and writes what was read into the buffer; answers how many bytes that are.
pub fn read_and_write(
    heap: Global,
    text: &[u8],
    mut draft: Draft,
    list: &mut [u64],
    buffer: &mut [u8],
) -> Result<usize, TripError>
    ensures { TextComesBack text.now list.old buffer.old result list.new buffer.new }
{
    let found = read(heap, text, &mut draft, list)?;
    let sheet = draft.seal();
    Ok(write_found(&sheet, found, list, buffer)?)
}
