ghost use Rattle.structures.specs.Meanings.{feed_works};
ghost use Rattle.structures.specs.MeaningsLemmas.{feed_contained};

use crate::effect::Effect;
use crate::structure::Structure;
use sheet::PartNumber;
use states::State;

// A layer of this effect works when its part is sound and the one below works.
#[derive(Clone, Copy)]
pub struct Feed;

impl Effect for Feed {
    ghost layered = { λ _ part below x. feed_works part below x };

    ghost keeps = { λ _ part below law x y h w. feed_contained part.number below x y w (law x y h w) };

    fn works_in<S: Structure>(&self, part: PartNumber, below: &S, state: State) -> bool {
        !state.contains(part) && below.works_in(state)
    }
}
