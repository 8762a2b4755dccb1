ghost use Rattle.std.specs.Prelude.{◌≡◌, ◌≤◌, ◌%◌, ◌^◌, map, length, IfOk, vec_len};
ghost use Rattle.std.specs.List.{list_any};
ghost use Rattle.states.specs.Sets.{disjoint};

use crate::refusal::PathListError;
use crate::structure::Structure;
use states::State;
use std::alloc::{AllocError, Global};

// Works when all parts of some path are sound. A path is a set of parts.
#[derive(Drop)]
pub struct PathList {
    paths: Vec<State>,
    ghost few: { vec_len paths ≤ 256 },
}

impl PathList {
    ghost use Rattle.structures.specs.Paths.{first_too_high, Listed};

    // How many paths a list may have.
    pub const MOST: usize = 256;

    // The place of the first number that has a part above 40.
    fn first_too_high(numbers: &[u64]) -> Option<usize>
        ensures { result ≡ first_too_high numbers.now }
    {
        numbers.iter().position(|number| *number >= 1 << 40)
    }

    // The list of these paths, each the number of a set of parts: at most 256, none with a part above 40.
    #[tactic(auto, using(crate::proofs::Paths::all_fit))]
    pub fn new(heap: Global, numbers: &[u64]) -> Result<PathList, PathListError>
        ensures { Listed numbers.now result }
    {
        if numbers.len() > Self::MOST {
            return Err(PathListError::TooManyPaths);
        }
        if let Some(place) = Self::first_too_high(numbers) {
            return Err(PathListError::PartTooHigh(place));
        }
        let paths = sets(heap, numbers)?;
        Ok(PathList { paths })
    }
}

// The sets of these numbers.
fn sets(heap: Global, numbers: &[u64]) -> Result<Vec<State>, AllocError>
    ensures numbers { IfOk result (λ paths. map (λ path. path.number) paths.items ≡ map (λ n. n % 2 ^ 40) numbers.now) }
    ensures count { IfOk result (λ paths. vec_len paths ≡ length numbers.now) }
{
    numbers
        .iter()
        .map(|number| State::new(*number))
        .collect(heap)
}

// Whether all parts of some path are sound.
fn some_sound(paths: &[State], state: State) -> bool
    ensures { result ≡ list_any (λ path. disjoint path.number state.number) paths.now }
{
    paths.iter().any(|path| path.is_disjoint(state))
}

impl Structure for PathList {
    ghost use Rattle.structures.specs.Meanings.{path_list_works};
    ghost use Rattle.structures.specs.MeaningsLemmas.{path_list_contained};
    ghost use Rattle.structures.specs.Paths.{paths_of};

    ghost works = { λ list x. path_list_works (paths_of list) x };

    ghost contained = { λ s x y h w. path_list_contained (paths_of s) x y w };

    #[tactic(auto, using(crate::proofs::Paths::any_number))]
    fn works_in(&self, state: State) -> bool {
        some_sound(&self.paths, state)
    }
}
