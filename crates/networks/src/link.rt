ghost use Rattle.std.specs.Prelude.{◌≡◌, false};

use crate::mast::Mast;
use crate::wire::Wire;
use sheet::PartNumber;

// A link of a network as it is brought: the masts at its ends, and its part.
#[derive(Clone, Copy, Debug, PartialEq, Eq)]
pub struct Link {
    pub one: u8,
    pub other: u8,
    pub part: u8,
}

impl Link {
    ghost use Rattle.networks.specs.Networks.{link_of, end_too_high, part_unknown};

    pub fn new(one: u8, other: u8, part: u8) -> Link
        ensures one { result.one ≡ one }
        ensures other { result.other ≡ other }
        ensures part { result.part ≡ part }
    {
        Link { one, other, part }
    }

    // Whether an end is above 15.
    pub(crate) fn has_end_too_high(&self) -> bool
        ensures { result ≡ end_too_high self.now }
    {
        self.one > Mast::HIGHEST || self.other > Mast::HIGHEST
    }

    // Whether the part is not 1 to 40.
    pub(crate) fn has_unknown_part(&self) -> bool
        ensures { result ≡ part_unknown self.now }
    {
        self.part < 1 || self.part > PartNumber::HIGHEST
    }

    // The link, typed. No `TryFrom`: the ends of all links are tested before any part.
    pub(crate) fn wire(&self) -> Wire
        requires ends { end_too_high self.now ≡ false }
        requires part { part_unknown self.now ≡ false }
        ensures { link_of result ≡ self.now }
    {
        Wire {
            one: Mast::try_from(self.one).unwrap(),
            other: Mast::try_from(self.other).unwrap(),
            part: PartNumber::try_from(self.part).unwrap(),
        }
    }
}
