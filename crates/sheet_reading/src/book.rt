ghost use Rattle.std.specs.Prelude.{◌≡◌, ℕ, ◌≤◌, [], ◌∷◌, true, false, length, is_some, MatchResult};
ghost use Rattle.sheet_reading.specs.Stages.{next_stage, done_at};

use crate::numbers::{number_at, path_numbers};
use crate::parts::{fault_of_part, grade_of, part_on_sheet};
use crate::path::path_of;
use crate::stage::Stage;
use sheet::{Draft, PartNumber};
use sheet_lines::{Fault, Kind, Line, Refusal, Token};
use std::alloc::Global;

// What was read of a text so far. The feed stands beside the stage and not in it: a stage says by kinds alone what may come next.
#[derive(Drop)]
pub(crate) struct Book {
    pub(crate) draft: Draft,
    pub(crate) paths: Vec<u64>,
    pub(crate) stage: Stage,
    pub(crate) feed: Option<PartNumber>,
    ghost fed: { done_at stage ≡ is_some feed },
}

impl Book {
    ghost use Rattle.sheet_lines.specs.Tokens.{Parted};
    ghost use Rattle.sheet_reading.specs.Books.{content_of, Takes, TakesLine};
    ghost use Rattle.sheet_reading.specs.Rules.{nothing, is_next};

    // An empty book.
    pub(crate) fn new(heap: Global) -> Book
        ensures { content_of result ≡ nothing }
    {
        Book {
            draft: Draft::new(heap),
            paths: Vec::new(heap),
            stage: Stage::Parts,
            feed: None,
        }
    }

    // The stage after a line of this kind, where it comes in its turn.
    fn stage_after(&self, kind: Kind, line: usize) -> Result<Stage, Fault>
        ensures { MatchResult result (λ s. next_stage self.now.stage kind ≡ Some s) (λ f. (next_stage self.now.stage kind ≡ None) × (f ≡ record { refusal = Refusal.OutOfTurn; line = line; field = 1 })) }
    {
        self.stage.after(kind).ok_or(Refusal::OutOfTurn.at(line, 1))
    }

    // Takes the line of a feed part.
    fn take_feed(&mut self, number: u32, line: usize) -> Result<(), Fault>
        ensures { (most : ℕ) → Takes most self.old Kind.Feed (number ∷ []) line result self.new }
    {
        let stage = self.stage_after(Kind::Feed, line)?;
        let part = part_on_sheet(number, self.draft.count()).ok_or(Refusal::BadPart.at(line, 2))?;
        self.stage = stage;
        self.feed = Some(part);
        Ok(())
    }

    // Takes the line of a path, where so many paths are allowed.
    fn take_path(&mut self, numbers: &[u32], most: usize, line: usize) -> Result<(), Fault>
        requires { length numbers.now ≤ 40 }
        ensures { Takes most self.old Kind.Path numbers.now line result self.new }
    {
        let stage = self.stage_after(Kind::Path, line)?;
        let path = path_of(numbers, self.draft.count(), line)?;
        if self.paths.len() >= most {
            return Err(Refusal::TooManyPaths.at(line, 0));
        }
        self.paths
            .push(path)
            .map_err(|_refused| Refusal::OutOfMemory.at(line, 0))?;
        self.stage = stage;
        Ok(())
    }

    // The stage after the line of a part of this number, where it comes in its turn and is the next.
    fn stage_after_part(&self, number: u32, line: usize) -> Result<Stage, Fault>
        ensures { MatchResult result (λ s. (s ≡ Stage.Parts) × (is_next (content_of self.now) number ≡ true)) (λ f. (is_next (content_of self.now) number ≡ false) × (f ≡ record { refusal = Refusal.OutOfTurn; line = line; field = 1 })) }
    {
        let stage = self.stage_after(Kind::Part, line)?;
        if number as usize != self.draft.count() + 1 {
            return Err(Refusal::OutOfTurn.at(line, 1));
        }
        Ok(stage)
    }

    // Takes the line of a part.
    fn take_part(&mut self, number: u32, grade: u32, cents: u32, line: usize) -> Result<(), Fault>
        requires { cents ≤ 99999999 }
        ensures { (most : ℕ) → Takes most self.old Kind.Part (number ∷ (grade ∷ (cents ∷ []))) line result self.new }
    {
        let stage = self.stage_after_part(number, line)?;
        self.draft
            .add(grade_of(grade), cents)
            .map_err(|error| fault_of_part(error, line))?;
        self.stage = stage;
        Ok(())
    }

    // Takes a line, where so many paths are allowed.
    pub(crate) fn take_line(
        &mut self,
        heap: Global,
        line: Line<'_>,
        most: usize,
    ) -> Result<(), Fault>
        requires { Parted line.token }
        ensures { TakesLine most self.old line.entry.token line.entry.number result self.new }
    {
        let Line { token, number: at } = line;
        match token {
            Token::Part(number, grade, cents) => {
                let number = number_at(number, at, 2)?;
                let grade = number_at(grade, at, 3)?;
                let cents = number_at(cents, at, 4)?;
                self.take_part(number, grade, cents, at)
            }
            Token::Path(fields) => {
                let numbers = path_numbers(heap, fields, at)?;
                self.take_path(&numbers, most, at)
            }
            Token::Feed(number) => {
                let number = number_at(number, at, 2)?;
                self.take_feed(number, at)
            }
        }
    }
}
