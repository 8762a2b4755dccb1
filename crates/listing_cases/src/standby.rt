ghost use Rattle.listing_cases.specs.Standby.{standby_works};
ghost use Rattle.std.specs.Prelude.{pred};
ghost use Rattle.states.specs.Sets.{has};
ghost use Rattle.states.proofs.Sets.{within_bit};
ghost use Rattle.listing_cases.specs.StandbyStructureLemmas.{both};

use sheet::PartNumber;
use states::State;
use structures::Structure;

// A unit with a spare: the station works unless both have failed.
#[derive(Clone, Copy)]
pub struct Standby {
    pub unit: PartNumber,
    pub spare: PartNumber,
}

impl Structure for Standby {
    ghost works = { λ s x. standby_works s.unit.number s.spare.number x };

    ghost contained = { λ s x y h w works. both (has s.unit.number x) (has s.spare.number x) (has s.unit.number y) (has s.spare.number y) (within_bit x y (pred s.unit.number) w) (within_bit x y (pred s.spare.number) w) works };

    fn works_in(&self, state: State) -> bool {
        !(state.contains(self.unit) && state.contains(self.spare))
    }
}
