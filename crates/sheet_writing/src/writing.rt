ghost use Rattle.std.specs.Prelude.{◌≡◌, ◌≤◌, length};
ghost use Rattle.std.specs.List.{list_all};
ghost use Rattle.sheet.specs.Parts.{parts_of};
ghost use Rattle.sheet_lines.specs.Texts.{sheet_text};
ghost use Rattle.sheet_writing.specs.Writing.{is_path, is_writable, Written};

use crate::write_error::WriteError;
use crate::writer::Writer;
use sheet::{Part, PartNumber, Sheet};

// The most paths of a text.
const MOST_PATHS: usize = 256;

// Whether the set of this number is not empty, and on a sheet of so many parts.
fn is_path(path: u64, parts: usize) -> bool
    requires { parts ≤ 40 }
    ensures { result ≡ is_path parts path }
{
    0 < path && path < 1 << parts
}

// Whether all these are paths on a sheet of so many parts.
fn are_paths(paths: &[u64], parts: usize) -> bool
    requires { parts ≤ 40 }
    ensures { result ≡ list_all (is_path parts) paths.now }
{
    paths.iter().all(|path| is_path(*path, parts))
}

// Whether the paths are few enough, and each of them and the feed on a sheet of so many parts.
fn is_writable(paths: &[u64], feed: PartNumber, parts: usize) -> bool
    requires { parts ≤ 40 }
    ensures { result ≡ is_writable parts paths.now feed.number }
{
    paths.len() <= MOST_PATHS && feed.number() as usize <= parts && are_paths(paths, parts)
}

// How many bytes the text takes.
#[tactic(auto, using(crate::proofs::Lengths::text_length))]
fn text_length(parts: &[Part], paths: &[u64], feed: PartNumber) -> usize
    requires few_parts { length parts.now ≤ 40 }
    requires few_paths { length paths.now ≤ 256 }
    ensures { result ≡ length (sheet_text parts.now paths.now feed.number) }
{
    let mut nothing = [0; 0];
    let mut writer = Writer::new(&mut nothing);
    writer.text(parts, paths, feed);
    writer.place()
}

// Writes the text of a sheet, its paths and its feed part as the first bytes of the buffer, and answers how many they are. A path
// is the number of a set of parts.
pub fn write(
    sheet: &Sheet,
    paths: &[u64],
    feed: PartNumber,
    buffer: &mut [u8],
) -> Result<usize, WriteError>
    ensures { Written (parts_of sheet.now) paths.now feed.number buffer.old result buffer.new }
{
    if !is_writable(paths, feed, sheet.count()) {
        return Err(WriteError::NotOnSheet);
    }
    let length = text_length(sheet.parts(), paths, feed);
    if length > buffer.len() {
        return Err(WriteError::BufferTooShort(length));
    }
    Writer::new(buffer).text(sheet.parts(), paths, feed);
    Ok(length)
}
