ghost use Rattle.std.specs.Prelude.{◌≡◌, ◌%◌, ◌^◌};
ghost use Rattle.structures.specs.Meanings.{sound_parts, quorum_works};
ghost use Rattle.structures.specs.MeaningsLemmas.{quorum_contained};

use crate::structure::Structure;
use states::State;

// Works when at least so many parts of the set are sound.
#[derive(Clone, Copy)]
pub struct Quorum {
    count: u64,
    set: State,
}

impl Quorum {
    // The quorum of a count and the number of a set, of which the lowest 40 binary places count.
    pub fn new(count: u64, set: u64) -> Quorum
        ensures count { result.count ≡ count }
        ensures set { result.set.number ≡ set % 2 ^ 40 }
    {
        Quorum {
            count,
            set: State::new(set),
        }
    }
}

// How many parts of the set are sound.
#[tactic(auto, using(crate::specs::MeaningsLemmas::sound_size))]
fn sound(set: State, state: State) -> u32
    ensures { result ≡ sound_parts 40 set.number state.number }
{
    set.difference(state).size()
}

impl Structure for Quorum {
    ghost works = { λ quorum x. quorum_works quorum.count quorum.set.number x };

    ghost contained = { λ s x y h w. quorum_contained s.count s.set.number x y w };

    fn works_in(&self, state: State) -> bool {
        self.count <= u64::from(sound(self.set, state))
    }
}
