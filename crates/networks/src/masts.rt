ghost use Rattle.std.specs.Prelude.{◌≡◌, ◌^◌};
ghost use Rattle.states.specs.Sets.{bit};
ghost use Rattle.networks.specs.Networks.{with_mast};

use crate::mast::Mast;

// A set of masts. Its number has a binary place for each. A type of its own beside the set of parts, `State`: masts are no parts,
// and a set of masts is asked for less.
#[derive(Clone, Copy)]
pub(crate) struct Masts {
    number: u16,
}

impl Masts {
    // The set of this mast alone.
    pub(crate) fn alone(mast: Mast) -> Masts
        ensures { result.number ≡ 2 ^ mast.number }
    {
        Masts {
            number: 1 << mast.number(),
        }
    }

    // Whether the mast is in the set.
    #[tactic(auto, unfolding(states::specs::Sets::bit))]
    pub(crate) fn contains(self, mast: Mast) -> bool
        ensures { result ≡ bit mast.number self.number }
    {
        (self.number >> mast.number()) % 2 == 1
    }

    // The set with this mast as well.
    pub(crate) fn with(self, mast: Mast) -> Masts
        ensures { result.number ≡ with_mast mast.number self.number }
    {
        Masts {
            number: self.number | Masts::alone(mast).number,
        }
    }
}
