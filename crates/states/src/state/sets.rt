ghost use Rattle.std.specs.Prelude.{◌≡◌, ℕ, ◌<◌, true, false, not, ◌&&◌, ◌||◌, ◌==◌};
ghost use Rattle.states.specs.Sets.{has, with_part, without_part, union, within, disjoint, difference, size};

use super::{State, power};
use sheet::PartNumber;

impl State {
    // Whether the part is in the set.
    #[tactic(auto, unfolding(crate::specs::Sets::bit))]
    pub fn contains(self, part: PartNumber) -> bool
        ensures { result ≡ has part.number self.number }
    {
        (self.number >> part.place()) % 2 == 1
    }

    // The set with the part as well.
    #[tactic(auto, using(crate::proofs::Sets::or_with, crate::proofs::Sets::has_with, crate::proofs::Sets::with_fits))]
    pub fn with(self, part: PartNumber) -> State
        ensures value { result.number ≡ with_part part.number self.number }
        ensures parts { (j : ℕ) → 0 < j → has j result.number ≡ (j == part.number || has j self.number) }
    {
        State {
            number: self.number | power(part.place()),
        }
    }

    // The set without the part.
    #[tactic(auto, using(crate::proofs::Sets::has_without, crate::proofs::Sets::part_le), unfolding(crate::specs::Sets::without_part))]
    pub fn without(self, part: PartNumber) -> State
        ensures value { result.number ≡ without_part part.number self.number }
        ensures parts { (j : ℕ) → 0 < j → has j result.number ≡ (not (j == part.number) && has j self.number) }
    {
        if !self.contains(part) {
            return self;
        }
        State {
            number: self.number - power(part.place()),
        }
    }

    // The parts of both sets.
    #[tactic(auto, using(crate::proofs::Sets::or_fits, crate::proofs::Bits::bit_of_or))]
    pub fn union(self, other: State) -> State
        ensures value { result.number ≡ union self.number other.number }
        ensures parts { (j : ℕ) → has j result.number ≡ (has j self.number || has j other.number) }
    {
        State {
            number: self.number | other.number,
        }
    }

    // Whether every part of this set is in the other.
    #[tactic(auto, using(crate::proofs::Sets::within_part, crate::proofs::Sets::within_parts))]
    pub fn is_within(self, other: State) -> bool
        ensures value { result ≡ within self.number other.number }
        ensures parts { result ≡ true → (j : ℕ) → has j self.number ≡ true → has j other.number ≡ true }
        ensures all_parts { ((j : ℕ) → has j self.number ≡ true → has j other.number ≡ true) → result ≡ true }
    {
        self.number & other.number == self.number
    }

    // Whether no part of this set is in the other.
    #[tactic(auto, using(crate::proofs::Sets::disjoint_part, crate::proofs::Sets::disjoint_parts))]
    pub fn is_disjoint(self, other: State) -> bool
        ensures value { result ≡ disjoint self.number other.number }
        ensures parts { result ≡ true → (j : ℕ) → has j self.number ≡ true → has j other.number ≡ false }
        ensures all_parts { ((j : ℕ) → has j self.number ≡ true → has j other.number ≡ false) → result ≡ true }
    {
        self.number & other.number == 0
    }

    // The parts of this set that are not in the other.
    #[tactic(auto, using(crate::proofs::Sets::bit_difference, crate::proofs::Sets::common_le))]
    pub fn difference(self, other: State) -> State
        ensures value { result.number ≡ difference self.number other.number }
        ensures parts { (j : ℕ) → has j result.number ≡ (has j self.number && not (has j other.number)) }
    {
        State {
            number: self.number - (self.number & other.number),
        }
    }

    // How many parts are in the set.
    #[tactic(auto, using(crate::proofs::Sets::ones_size))]
    pub fn size(self) -> u32
        ensures { result ≡ size 40 self.number }
    {
        self.number.count_ones()
    }
}
