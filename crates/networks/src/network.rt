ghost use Rattle.std.specs.Prelude.{◌≡◌, ◌≤◌, ◌^◌, ◌↔◌, true, false, map, length, IfOk, vec_len};
ghost use Rattle.std.specs.List.{list_any};

use crate::link::Link;
use crate::mast::Mast;
use crate::masts::Masts;
use crate::refusal::NetworkError;
use crate::wire::Wire;
use states::State;
use std::alloc::{AllocError, Global};
use structures::Structure;

// Works when links with sound parts join the two terminals.
#[derive(Drop)]
pub struct Network {
    from: Mast,
    to: Mast,
    wires: Vec<Wire>,
    ghost few: { vec_len wires ≤ 64 },
}

impl Network {
    ghost use Rattle.networks.specs.Networks.{link_of, links_of, end_too_high, part_unknown, one_round, rounds, network_works, Wired};
    ghost use Rattle.networks.specs.Walks.{Walk};

    // How many links a network may have.
    pub const MOST_LINKS: usize = 64;

    // Whether some link has an end above 15. This and the next are functions of one line: inside `new` the proof did not close.
    fn some_end_too_high(links: &[Link]) -> bool
        ensures { result ≡ list_any end_too_high links.now }
    {
        links.iter().any(|link| link.has_end_too_high())
    }

    // Whether some link has a part that is not 1 to 40.
    fn some_part_unknown(links: &[Link]) -> bool
        ensures { result ≡ list_any part_unknown links.now }
    {
        links.iter().any(|link| link.has_unknown_part())
    }

    // The links, typed.
    fn wires(heap: Global, links: &[Link]) -> Result<Vec<Wire>, AllocError>
        requires ends { list_any end_too_high links.now ≡ false }
        requires parts { list_any part_unknown links.now ≡ false }
        ensures links { IfOk result (λ wires. map link_of wires.items ≡ links.now) }
        ensures count { IfOk result (λ wires. vec_len wires ≡ length links.now) }
    {
        links.iter().map(|link| link.wire()).collect(heap)
    }

    // The network of these links and terminals: at most 64 links, masts 0 to 15, parts 1 to 40.
    pub fn new(heap: Global, from: u8, to: u8, links: &[Link]) -> Result<Network, NetworkError>
        ensures { Wired from to links.now result }
    {
        if links.len() > Self::MOST_LINKS {
            return Err(NetworkError::TooManyLinks);
        }
        let from = Mast::try_from(from)?;
        let to = Mast::try_from(to)?;
        if Self::some_end_too_high(links) {
            return Err(NetworkError::MastTooHigh);
        }
        if Self::some_part_unknown(links) {
            return Err(NetworkError::NotAPart);
        }
        let wires = Self::wires(heap, links)?;
        Ok(Network { from, to, wires })
    }

    // The masts reached after a pass over all links.
    fn round(&self, state: State, start: Masts) -> Masts
        ensures { result.number ≡ one_round state.number (links_of self.now) start.number }
    {
        self.wires
            .iter()
            .fold(start, |reached, wire| wire.over(state, reached))
    }

    // The masts reached from the first terminal. A round adds a mast or is the last that matters, and there are 16 masts.
    #[tactic(auto, using(crate::specs::Rounds::rounds_more), unfolding(crate::specs::Networks::rounds))]
    fn reached(&self, state: State) -> Masts
        ensures { result.number ≡ rounds 16 state.number (links_of self.now) (2 ^ self.now.from.number) }
    {
        let mut reached = Masts::alone(self.from);
        for _ in 0..16u8 {
            reached = self.round(state, reached);
        }
        reached
    }

    // Whether links with sound parts join the terminals.
    #[tactic(auto, using(crate::specs::Rounds::works_walk, crate::proofs::Links::walk_joins), unfolding(crate::specs::Networks::network_works))]
    pub fn joins_terminals(&self, state: State) -> bool
        ensures value { result ≡ network_works self.now.from.number self.now.to.number (links_of self.now) state.number }
        ensures walk { (result ≡ true) ↔ Walk (links_of self.now) state.number self.now.from.number self.now.to.number }
    {
        self.reached(state).contains(self.to)
    }
}

impl Structure for Network {
    ghost use Rattle.networks.specs.Networks.{links_of, network_works};
    ghost use Rattle.networks.specs.Rounds.{network_contained, known_wires};

    ghost works = { λ net x. network_works net.from.number net.to.number (links_of net) x };

    ghost contained = { λ s x y h w. network_contained s.from.number s.to.number (links_of s) x y (known_wires s.wires.items) s.from.known w };

    fn works_in(&self, state: State) -> bool {
        self.joins_terminals(state)
    }
}
