ghost use Rattle.std.specs.Prelude.{◌≡◌, ◌≤◌};

use crate::grade::Grade;

// A part on a sheet: its grade, and its price in cents.
#[derive(Clone, Copy)]
pub struct Part {
    pub grade: Grade,
    pub cents: u32,
    ghost priced: { cents ≤ 99_999_999 },
}

impl Part {
    ghost use Rattle.sheet.specs.Parts.{figure_of};

    // The highest price, in cents.
    pub const MOST_CENTS: u32 = 99_999_999;

    // The part's failure probability in parts per million.
    pub fn failure_ppm(self) -> u32
        ensures value { result ≡ figure_of self }
        ensures at_most_half { result ≤ 500_000 }
    {
        self.grade.failure_ppm()
    }
}
