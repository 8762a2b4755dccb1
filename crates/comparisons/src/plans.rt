use crate::draws::Draws;
use networks::{Link, Network};
use sheet::{PartNumber, Sheet};
use std::alloc::Global;
use structures::{Effect, Layer, PathList, Quorum, Structure};

// How piles of one kind are made, each for a sheet of its own.
pub(crate) trait Plan {
    type Pile: Structure + Drop;

    fn pile(&self, heap: Global, sheet: &Sheet, draws: &mut Draws) -> anyhow::Result<Self::Pile>;
}

// Lists of 0 to 4 paths.
#[derive(Clone, Copy)]
pub(crate) struct PathLists;

impl Plan for PathLists {
    type Pile = PathList;

    fn pile(&self, heap: Global, sheet: &Sheet, draws: &mut Draws) -> anyhow::Result<PathList> {
        let mut paths = Vec::new(heap);
        for _ in 0..draws.below(5) {
            paths.push(draws.set(sheet))?;
        }
        Ok(PathList::new(heap, &paths)?)
    }
}

// Quorums of any count from 0 to one above the number of parts.
#[derive(Clone, Copy)]
pub(crate) struct Quorums;

impl Plan for Quorums {
    type Pile = Quorum;

    fn pile(&self, _heap: Global, sheet: &Sheet, draws: &mut Draws) -> anyhow::Result<Quorum> {
        let count = draws.below(sheet.count() as u8 + 2);
        Ok(Quorum::new(u64::from(count), draws.set(sheet)))
    }
}

// Networks over five masts, of one link more than there are parts.
#[derive(Clone, Copy)]
pub(crate) struct Networks;

impl Plan for Networks {
    type Pile = Network;

    fn pile(&self, heap: Global, sheet: &Sheet, draws: &mut Draws) -> anyhow::Result<Network> {
        let from = draws.below(5);
        let to = draws.below(5);
        let mut links = Vec::new(heap);
        for _ in 0..sheet.count() + 1 {
            let one = draws.below(5);
            let other = draws.below(5);
            links.push(Link::new(one, other, draws.part(sheet)))?;
        }
        Ok(Network::new(heap, from, to, &links)?)
    }
}

// Piles of another plan, each under a layer of this effect.
#[derive(Clone, Copy)]
pub(crate) struct Over<E, P>(pub(crate) E, pub(crate) P);

impl<E: Effect + Copy + Drop, P: Plan> Plan for Over<E, P> {
    type Pile = Layer<E, P::Pile>;

    fn pile(
        &self,
        heap: Global,
        sheet: &Sheet,
        draws: &mut Draws,
    ) -> anyhow::Result<Layer<E, P::Pile>> {
        let below = self.1.pile(heap, sheet, draws)?;
        let part = PartNumber::try_from(draws.part(sheet))?;
        Ok(Layer::new(part, self.0, below))
    }
}
