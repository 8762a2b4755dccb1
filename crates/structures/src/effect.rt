ghost use Rattle.std.specs.Prelude.{◌≡◌, ℕ, Bool};
ghost use Rattle.sheet.specs.declared.part_number.PartNumber.{PartNumber};
ghost use Rattle.structures.specs.Meanings.{KeepsContained};

use crate::structure::Structure;
use sheet::PartNumber;
use states::State;

// What a layer's part does to what the structure below answers.
pub trait Effect {
    // Its meaning: a layer's answer, by its part, the meaning of the structure below, and a state, each by its number.
    ghost layered: { Self → ℕ → (ℕ → Bool) → ℕ → Bool };

    fn works_in<S: Structure>(&self, part: PartNumber, below: &S, state: State) -> bool
        ensures { result ≡ layered self.now part.number (S.Structure.works below.now) state.number };

    // A layer over a structure that keeps the law keeps it.
    ghost keeps: { (effect : Self) (part : PartNumber) (below : ℕ → Bool) → KeepsContained below → KeepsContained (layered effect part.number below) };
}
