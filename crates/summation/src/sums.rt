ghost use Rattle.std.specs.Prelude.{◌≡◌, ◌+◌, ◌*◌, ◌/◌, ◌^◌, ◌<◌, if◌then◌else◌};
ghost use Rattle.states.specs.Masses.{total};

use thiserror::Error;

// The masses of all states in which the station works, and of all in which it fails, out of 10^18.
#[derive(Clone, Copy, Debug, PartialEq, Eq)]
pub struct Sums {
    pub working: u64,
    pub failing: u64,
}

// Why states were not summed.
#[derive(Clone, Copy, Debug, PartialEq, Eq, Error)]
pub enum SumError {
    // So more than a million states.
    #[error("more than 20 parts")]
    TooManyParts,
}

impl Sums {
    // The sums with one more state.
    pub(crate) fn with(self, mass: u64, works: bool) -> Sums
        requires { self.working + self.failing + mass < 2 ^ 64 }
        ensures working { result.working ≡ self.working + (if works then mass else 0) }
        ensures failing { result.failing ≡ self.failing + (if works then 0 else mass) }
    {
        if works {
            Sums {
                working: self.working + mass,
                ..self
            }
        } else {
            Sums {
                failing: self.failing + mass,
                ..self
            }
        }
    }

    // The reliability in thousand-millionths of the total, rounded down.
    pub fn reliability(self) -> u64
        ensures { result ≡ 1_000_000_000 * self.working / total }
    {
        self.working / 1_000_000_000
    }
}
