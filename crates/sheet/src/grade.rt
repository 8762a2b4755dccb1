ghost use Rattle.std.specs.Prelude.{◌≡◌, ◌<◌, ◌≤◌, MatchResult};

use thiserror::Error;

// The failure figures of grades 0 to 39, in parts per million: preferred numbers of the series R10.
const FAILURE_PPM: [u32; 40] = [
    500000, 400000, 315000, 250000, 200000, 160000, 125000, 100000, 80000, 63000, 50000, 40000,
    31500, 25000, 20000, 16000, 12500, 10000, 8000, 6300, 5000, 4000, 3150, 2500, 2000, 1600, 1250,
    1000, 800, 630, 500, 400, 315, 250, 200, 160, 125, 100, 80, 63,
];

// A grade, 0 to 39: it stands for a part's failure probability. A type of its own beside other bounded numbers: by const
// parameters one type would have methods of which each serves one instance.
#[derive(Clone, Copy)]
pub struct Grade {
    number: u8,
    ghost known: { number ≤ 39 },
}

// A number above 39, which is no grade.
#[derive(Clone, Copy, Debug, PartialEq, Eq, Error)]
#[error("there is no grade above 39")]
pub struct GradeTooHigh;

impl TryFrom<u8> for Grade {
    type Error = GradeTooHigh;

    ghost try_from_gives = { λ number r. MatchResult r (λ g. (g.number ≡ number) × (number ≤ 39)) (λ _. 39 < number) };

    fn try_from(number: u8) -> Result<Grade, GradeTooHigh> {
        if number > Grade::HIGHEST {
            return Err(GradeTooHigh);
        }
        Ok(Grade { number })
    }
}

impl Grade {
    ghost use Rattle.sheet.specs.Grades.{figure, Preferred};

    pub const HIGHEST: u8 = 39;

    pub fn number(self) -> u8
        ensures value { result ≡ self.number }
        ensures known { result ≤ 39 }
    {
        self.number
    }

    // The failure probability that the grade stands for, in parts per million.
    #[tactic(auto, using(crate::proofs::Table::preferred), unfolding(crate::specs::Grades::figure, crate::specs::Grades::table))]
    pub fn failure_ppm(self) -> u32
        ensures value { result ≡ figure self.number }
        ensures preferred { Preferred figure }
    {
        FAILURE_PPM[usize::from(self.number)]
    }
}
