ghost use Rattle.structures.specs.Meanings.{bypass_works};
ghost use Rattle.structures.specs.MeaningsLemmas.{bypass_contained};

use crate::effect::Effect;
use crate::structure::Structure;
use sheet::PartNumber;
use states::State;

// A layer of this effect works when its part is sound or the one below works.
#[derive(Clone, Copy)]
pub struct Bypass;

impl Effect for Bypass {
    ghost layered = { λ _ part below x. bypass_works part below x };

    ghost keeps = { λ _ part below law x y h w. bypass_contained part.number below x y w (law x y h w) };

    fn works_in<S: Structure>(&self, part: PartNumber, below: &S, state: State) -> bool {
        !state.contains(part) || below.works_in(state)
    }
}
