ghost use Rattle.std.specs.Prelude.{◌≡◌};

use crate::mast::Mast;
use crate::masts::Masts;
use sheet::PartNumber;
use states::State;

// A link whose ends are masts and whose part is a part.
#[derive(Clone, Copy)]
pub(crate) struct Wire {
    pub(crate) one: Mast,
    pub(crate) other: Mast,
    pub(crate) part: PartNumber,
}

impl Wire {
    ghost use Rattle.networks.specs.Networks.{link_of, over_link};

    // The masts reached, with both ends of the link if it is sound and one of them is reached.
    pub(crate) fn over(&self, state: State, reached: Masts) -> Masts
        ensures { result.number ≡ over_link state.number (link_of self.now) reached.number }
    {
        if !state.contains(self.part)
            && (reached.contains(self.one) || reached.contains(self.other))
        {
            reached.with(self.one).with(self.other)
        } else {
            reached
        }
    }
}
