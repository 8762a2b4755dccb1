ghost use Rattle.std.specs.Prelude.{◌≡◌, Some, ◌≤◌, length, MatchResult};
ghost use Rattle.sheet.specs.Parts.{drafted};
ghost use Rattle.sheet_reading.specs.Books.{content_of};
ghost use Rattle.sheet_reading.specs.Readings.{Holds, FirstFaulty, most_paths, Reads, Exact};

use crate::book::Book;
use crate::found::Found;
use sheet::{Draft, PartNumber};
use sheet_lines::{Fault, LineReader, Refusal};
use std::alloc::Global;

// How many bytes a text may have.
const MOST_BYTES: usize = 65_536;

// How many paths a text may have, where the caller's list does not allow fewer.
const MOST_PATHS: usize = 256;

// Reads a text's lines into a book, where so many paths are allowed, and answers it with the feed part.
fn read_lines(heap: Global, text: &[u8], most: usize) -> Result<(Book, PartNumber), Fault>
    requires { length text.now ≤ 65536 }
    ensures { MatchResult result (λ p. Holds most text.now (content_of p.0) × (p.0.feed ≡ Some p.1)) (FirstFaulty most text.now) }
{
    let mut book = Book::new(heap);
    let mut reader = LineReader::new(text);
    let mut lines = 0;
    while let Some(line) = reader.next_line()? {
        book.take_line(heap, line, most)?;
        lines = line.number;
    }
    let feed = book.feed.ok_or(Refusal::OutOfTurn.at(lines + 1, 1))?;
    Ok((book, feed))
}

// Reads a text into the draft, anew, and the sets of its paths into the first entries of the list. A refusal leaves both as they were.
#[tactic(auto, using(crate::proofs::Beginnings::paths_fit, crate::proofs::OneFault::exact))]
pub fn read(heap: Global, text: &[u8], draft: &mut Draft, paths: &mut [u64]) -> Result<Found, Fault>
    ensures reads { Reads text.now (drafted draft.old) paths.old result (drafted draft.new) paths.new }
    ensures exact { Exact (most_paths paths.old) text.now }
{
    if text.len() > MOST_BYTES {
        return Err(Refusal::TextTooLong.at(0, 0));
    }
    let most = paths.len().min(MOST_PATHS);
    let (book, feed) = read_lines(heap, text, most)?;
    let path_count = book.paths.len();
    paths[..path_count].copy_from_slice(&book.paths);
    *draft = book.draft;
    Ok(Found { path_count, feed })
}
