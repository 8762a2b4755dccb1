ghost use Rattle.std.specs.Prelude.{◌≡◌, ◌≤◌, length};

use crate::cut::cut;
use crate::fault::{Fault, Refusal};
use crate::line::Line;
use crate::tokens::token_in;

// A reader over a text that is lent to it: the place to which it has read, and how many lines that are. The whole text stays
// beside the place, and not the rest alone: a rule of the project.
#[derive(Drop)]
pub struct LineReader<'a> {
    text: &'a [u8],
    place: usize,
    lines: usize,
    ghost within: { place ≤ length text.now },
    ghost each: { lines ≤ place },
}

impl<'a> LineReader<'a> {
    ghost use Rattle.sheet_lines.specs.Lines.{rest_of, ReadsLine};

    // A reader at the start of a text.
    pub fn new(text: &'a [u8]) -> LineReader<'a>
        ensures text { result.text.now ≡ text.now }
        ensures place { result.place ≡ 0 }
        ensures lines { result.lines ≡ 0 }
    {
        LineReader {
            text,
            place: 0,
            lines: 0,
        }
    }

    // The unread rest.
    pub fn rest(&self) -> &'a [u8]
        ensures { result.now ≡ rest_of self.now }
    {
        &self.text[self.place..]
    }

    // The next line with its number, or none at the end of the text. A fault leaves the reader where it was.
    // No `Iterator`: tried, and it does not prove, since there each item leaves less to read, and a fault leaves the reader where it was.
    #[tactic(auto, using(crate::proofs::Reading::after_line))]
    pub fn next_line(&mut self) -> Result<Option<Line<'a>>, Fault>
        ensures { ReadsLine self.old result self.new }
    {
        let rest = self.rest();
        if rest.is_empty() {
            return Ok(None);
        }
        let number = self.lines + 1;
        let (line, _after) = cut(rest, b'\n').ok_or(Refusal::NoLineEnd.at(number, 0))?;
        let token = token_in(line).map_err(|error| error.at(number))?;
        self.place += line.len() + 1;
        self.lines = number;
        Ok(Some(Line { token, number }))
    }
}
