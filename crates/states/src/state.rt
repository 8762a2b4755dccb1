ghost use Rattle.std.specs.Prelude.{◌≡◌, ◌%◌, ◌^◌, ◌<◌};

pub mod masses;
mod reading;
mod sets;
mod steps;

// A set of parts, which stands for the state in which they have failed and no other has. Its number sums 2^(i-1) over its
// parts i. Sets are ordered by their numbers.
#[derive(Clone, Copy, PartialEq, Eq, PartialOrd, Ord)]
pub struct State {
    number: u64,
    ghost parts: { number < 2 ^ 40 },
}

impl State {
    // The state of a number, of which the lowest 40 binary places count.
    pub fn new(number: u64) -> State
        ensures { result.number ≡ number % 2 ^ 40 }
    {
        State {
            number: number % (1 << 40),
        }
    }

    pub fn number(self) -> u64
        ensures value { result ≡ self.number }
        ensures parts { result < 2 ^ 40 }
    {
        self.number
    }
}

// What a binary place counts, from 0.
fn power(place: usize) -> u64
    requires { place < 64 }
    ensures { result ≡ 2 ^ place }
{
    1 << place
}
