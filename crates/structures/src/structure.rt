ghost use Rattle.std.specs.Prelude.{◌≡◌, ℕ, Bool};
ghost use Rattle.structures.specs.Meanings.{KeepsContained};

use states::State;

// What says of a state whether the station works. Asking changes nothing.
pub trait Structure {
    // Its meaning: the states in which the station works, by number.
    ghost works: { Self → ℕ → Bool };

    fn works_in(&self, state: State) -> bool
        ensures { result ≡ works self.now state.number };

    // Every state contained in a working state works.
    ghost contained: { (s : Self) → KeepsContained (works s) };
}
