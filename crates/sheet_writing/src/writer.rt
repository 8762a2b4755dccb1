ghost use Rattle.std.specs.Prelude.{◌≡◌, ◌≤◌, [], ◌∷◌, length, decimal};
ghost use Rattle.sheet.specs.Parts.{grade_of};
ghost use Rattle.sheet_lines.specs.Texts.{line_text, members, part_lines, path_lines, sheet_text};
ghost use Rattle.sheet_lines.specs.Words.{word_of};
ghost use Rattle.sheet_writing.specs.Writers.{Wrote};

use itoa::Buffer;
use sheet::{Part, PartNumber};
use sheet_lines::Kind;

// Writes into a buffer as far as that has room, and counts on where it has none: so over an empty buffer it counts only.
#[derive(Drop)]
pub(crate) struct Writer<'a> {
    buffer: &'a mut [u8],
    place: usize,
}

impl<'a> Writer<'a> {
    // A writer at the start of a buffer.
    pub(crate) fn new(buffer: &'a mut [u8]) -> Writer<'a>
        ensures same_buffer { result.buffer.ghost_name ≡ buffer.entry.ghost_name }
        ensures bytes { result.buffer.now ≡ buffer.old }
        ensures place { result.place ≡ 0 }
    {
        Writer { buffer, place: 0 }
    }

    // How many bytes it was to write.
    pub(crate) fn place(&self) -> usize
        ensures { result ≡ self.now.place }
    {
        self.place
    }

    // Writes these bytes.
    fn bytes(&mut self, bytes: &[u8])
        ensures { Wrote self.old bytes.now self.new }
    {
        // no text is as long as the greatest number, where the place would stop
        let after = self.place.saturating_add(bytes.len());
        if after <= self.buffer.len() {
            self.buffer[self.place..after].copy_from_slice(bytes);
        }
        self.place = after;
    }

    // Writes a number, after a comma.
    fn number(&mut self, number: u64)
        ensures { Wrote self.old (44 ∷ decimal number) self.new }
    {
        let mut digits = Buffer::new();
        self.bytes(b",");
        self.bytes(digits.format(number).as_bytes());
    }

    // Writes the word of a kind of line.
    fn word(&mut self, kind: Kind)
        ensures { Wrote self.old (word_of kind) self.new }
    {
        self.bytes(match kind {
            Kind::Part => b"part",
            Kind::Path => b"path",
            Kind::Feed => b"feed",
        });
    }

    // Writes a line of this kind with these numbers.
    fn line(&mut self, kind: Kind, numbers: &[u64])
        ensures { Wrote self.old (line_text kind numbers.now) self.new }
    {
        self.word(kind);
        for number in numbers {
            self.number(*number);
        }
        self.bytes(b"\n");
    }

    // Writes the line of the part with this number.
    fn part_line(&mut self, number: u64, part: Part)
        ensures { Wrote self.old (line_text Kind.Part (number ∷ (grade_of part ∷ (part.cents ∷ [])))) self.new }
    {
        let grade = u64::from(part.grade.number());
        self.line(Kind::Part, &[number, grade, u64::from(part.cents)]);
    }

    // Writes the line of a path on a sheet of so many parts.
    fn path_line(&mut self, path: u64, parts: usize)
        requires { parts ≤ 40 }
        ensures { Wrote self.old (line_text Kind.Path (members parts path [])) self.new }
    {
        self.word(Kind::Path);
        for place in 0..parts {
            // no `State::contains`: it takes a part number, and here that would have to be made of the place
            if (path >> place) % 2 == 1 {
                self.number(place as u64 + 1);
            }
        }
        self.bytes(b"\n");
    }

    // Writes the feed's line.
    fn feed_line(&mut self, feed: PartNumber)
        ensures { Wrote self.old (line_text Kind.Feed (feed.number ∷ [])) self.new }
    {
        self.line(Kind::Feed, &[u64::from(feed.number())]);
    }

    // Writes the lines of the parts.
    fn part_lines(&mut self, parts: &[Part])
        ensures { Wrote self.old (part_lines 1 parts.now) self.new }
    {
        for (place, part) in parts.iter().enumerate() {
            self.part_line(place as u64 + 1, *part);
        }
    }

    // Writes the lines of paths on a sheet of so many parts.
    fn path_lines(&mut self, paths: &[u64], parts: usize)
        requires { parts ≤ 40 }
        ensures { Wrote self.old (path_lines parts paths.now) self.new }
    {
        for path in paths {
            self.path_line(*path, parts);
        }
    }

    // Writes the text of a sheet with these parts, of its paths and its feed.
    pub(crate) fn text(&mut self, parts: &[Part], paths: &[u64], feed: PartNumber)
        requires { length parts.now ≤ 40 }
        ensures { Wrote self.old (sheet_text parts.now paths.now feed.number) self.new }
    {
        self.part_lines(parts);
        self.path_lines(paths, parts.len());
        self.feed_line(feed);
    }
}
