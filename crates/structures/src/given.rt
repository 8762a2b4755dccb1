ghost use Rattle.std.specs.Prelude.{◌≡◌};
ghost use Rattle.structures.specs.Meanings.{given_state, given_works};
ghost use Rattle.structures.specs.MeaningsLemmas.{mapped_contained, given_within, given_fits};

use crate::effect::Effect;
use crate::structure::Structure;
use sheet::PartNumber;
use states::State;

// What a part is given as. A layer of this effect answers as the one below, at the state with its part in this condition.
#[derive(Clone, Copy, Debug, PartialEq, Eq)]
pub enum Condition {
    Sound,
    Failed,
}

impl Condition {
    // The state with the part in this condition.
    pub fn put(self, part: PartNumber, state: State) -> State
        ensures { result.number ≡ given_state self part.number state.number }
    {
        match self {
            Condition::Sound => state.without(part),
            Condition::Failed => state.with(part),
        }
    }
}

impl Effect for Condition {
    ghost layered = { λ condition part below x. given_works condition part below x };

    ghost keeps = { λ c part below law. mapped_contained (given_state c part.number) below (given_within c part.number) (given_fits c part.number part.to_forty) law };

    fn works_in<S: Structure>(&self, part: PartNumber, below: &S, state: State) -> bool {
        below.works_in(self.put(part, state))
    }
}
