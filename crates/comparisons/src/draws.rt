ghost use Rattle.std.specs.Prelude.{◌<◌, ◌≤◌};

use sheet::{Draft, Grade, Sheet};
use std::alloc::Global;

// Numbers that seem to follow no rule, each worked out from the one before.
#[derive(Drop)]
pub(crate) struct Draws {
    seed: u64,
}

impl Draws {
    // The numbers for a station of so many parts and such steps of grades.
    pub(crate) fn new(count: u8, steps: u8) -> Draws {
        Draws {
            seed: u64::from(count) * 256 + u64::from(steps),
        }
    }

    // A number of 31 binary places.
    fn word(&mut self) -> u64 {
        self.seed = self
            .seed
            .wrapping_mul(6_364_136_223_846_793_005)
            .wrapping_add(1_442_695_040_888_963_407);
        self.seed >> 33
    }

    // A number below the bound.
    pub(crate) fn below(&mut self, bound: u8) -> u8
        requires { 0 < bound }
        ensures { result < bound }
    {
        (self.word() % u64::from(bound)) as u8
    }

    // A sheet of so many parts, the first of a grade below `steps` and each of a grade less than `steps` above the one before.
    pub(crate) fn sheet(&mut self, heap: Global, count: u8, steps: u8) -> anyhow::Result<Sheet>
        requires { 0 < steps }
    {
        let mut draft = Draft::new(heap);
        let mut grade = 0u8;
        for _ in 0..count {
            grade = grade.saturating_add(self.below(steps)).min(Grade::HIGHEST);
            draft.add(grade, u32::from(self.below(250)))?;
        }
        Ok(draft.seal())
    }

    // The number of a set of parts of the sheet, and maybe the one after its last.
    pub(crate) fn set(&mut self, sheet: &Sheet) -> u64 {
        self.word() % (1 << (sheet.count() + 1))
    }

    // The number of a part of the sheet, or of the one or two after its last.
    pub(crate) fn part(&mut self, sheet: &Sheet) -> u8
        ensures { 1 ≤ result }
    {
        1 + self.below(sheet.count() as u8 + 2)
    }
}
