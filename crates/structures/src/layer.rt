ghost use Rattle.std.specs.Prelude.{◌≡◌};

use crate::effect::Effect;
use crate::structure::Structure;
use sheet::PartNumber;
use states::State;

// A structure over another: its part has an effect on what the one below answers.
#[derive(Drop)]
pub struct Layer<E, S> {
    part: PartNumber,
    effect: E,
    below: S,
}

impl<E: Drop, S> Layer<E, S> {
    pub fn new(part: PartNumber, effect: E, below: S) -> Layer<E, S>
        ensures part { result.part ≡ part }
        ensures effect { result.effect ≡ effect }
        ensures below { result.below ≡ below }
    {
        Layer {
            part,
            effect,
            below,
        }
    }

    // The structure below.
    pub fn into_below(self) -> S
        ensures { result ≡ self.below }
    {
        let Layer {
            part: _,
            effect: _,
            below,
        } = self;
        below
    }
}

impl<E: Effect, S: Structure> Structure for Layer<E, S> {
    ghost works = { λ layer x. E.Effect.layered layer.effect layer.part.number (S.Structure.works layer.below) x };

    ghost contained = { λ layer. E.Effect.keeps layer.effect layer.part (S.Structure.works layer.below) (S.Structure.contained layer.below) };

    fn works_in(&self, state: State) -> bool {
        self.effect.works_in(self.part, &self.below, state)
    }
}
