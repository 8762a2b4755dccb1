ghost use Rattle.std.specs.Prelude.{◌≡◌, ◌<◌, ◌≤◌, [], ◌∷◌, ◌++◌, map, length, MatchResult};

use crate::grade::Grade;
use crate::part::Part;
use crate::part_number::PartNumber;
use crate::refusal::AddError;
use crate::sealed::Sheet;
use std::alloc::Global;

// A sheet that is being filled. It is moved, never copied.
#[derive(Drop)]
pub struct Draft {
    sheet: Sheet,
}

impl Draft {
    ghost use Rattle.sheet.specs.Adding.{Admitted, Added};
    ghost use Rattle.sheet.specs.Orders.{last_or};
    ghost use Rattle.sheet.specs.Parts.{drafted, parts_of, grade_of};

    // A draft with no part.
    pub fn new(heap: Global) -> Draft
        ensures { drafted result ≡ [] }
    {
        Draft {
            sheet: Sheet {
                parts: Vec::new(heap),
            },
        }
    }

    // How many parts there are.
    pub fn count(&self) -> usize
        ensures value { result ≡ length (drafted self.now) }
        ensures few { result ≤ 40 }
    {
        self.sheet.count()
    }

    // The grade of the last part, 0 where there is none: what the next grade may not be below.
    #[tactic(auto, using(crate::proofs::Orders::last_map))]
    fn last_grade(&self) -> u8
        ensures { result ≡ last_or 0 (map grade_of (drafted self.now)) }
    {
        self.sheet
            .parts()
            .last()
            .map_or(0, |part| part.grade.number())
    }

    // The part of this grade and price, if the draft may take it.
    fn admitted(&self, grade: u8, cents: u32) -> Result<Part, AddError>
        ensures { Admitted (drafted self.now) grade cents result }
    {
        if self.count() >= Sheet::MOST {
            return Err(AddError::SheetFull);
        }
        let known = Grade::try_from(grade)?;
        if cents > Part::MOST_CENTS {
            return Err(AddError::PriceTooHigh);
        }
        if grade < self.last_grade() {
            return Err(AddError::GradeFalls);
        }
        Ok(Part {
            grade: known,
            cents,
        })
    }

    // Puts the part after the others, unless memory is wanting.
    #[tactic(auto, using(crate::proofs::Orders::one_more_or_not))]
    fn keep(&mut self, part: Part) -> Result<(), AddError>
        requires few { length (drafted self.old) < 40 }
        requires ordered { last_or 0 (map grade_of (drafted self.old)) ≤ grade_of part }
        ensures { MatchResult result (λ _. drafted self.new ≡ drafted self.old ++ part ∷ []) (λ e. (e ≡ AddError.OutOfMemory) × (drafted self.new ≡ drafted self.old)) }
    {
        self.sheet.parts.push(part)?;
        Ok(())
    }

    // Adds a part of this grade and price, and answers its number, the next one. A refusal leaves the draft as it was.
    pub fn add(&mut self, grade: u8, cents: u32) -> Result<PartNumber, AddError>
        ensures { Added (drafted self.old) grade cents result (drafted self.new) }
    {
        let part = self.admitted(grade, cents)?;
        let number = PartNumber::after(self.count() as u8);
        self.keep(part)?;
        Ok(number)
    }

    // The sheet of these parts: nothing is added any more.
    pub fn seal(self) -> Sheet
        ensures { parts_of result ≡ drafted self }
    {
        let Draft { sheet } = self;
        sheet
    }
}
