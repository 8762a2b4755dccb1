ghost use Rattle.std.specs.Prelude.{◌≡◌, ◌<◌, ◌≤◌, MatchResult};

use calls::RunError;

// What a run aims at: a target in parts per million of the total, which the sums are to reach, and a budget of states.
#[derive(Clone, Copy)]
pub(crate) struct Aim {
    pub(crate) target: u32,
    pub(crate) budget: u64,
    ghost whole: { target ≤ 1_000_000 },
}

impl Aim {
    // The aim of a run; a target above the whole is refused.
    pub(crate) fn new(target: u32, budget: u64) -> Result<Aim, RunError>
        ensures { MatchResult result (λ aim. (aim.target ≡ target) × (aim.budget ≡ budget)) (λ _. 1_000_000 < target) }
    {
        if target > 1_000_000 {
            return Err(RunError::TargetTooHigh);
        }
        Ok(Aim { target, budget })
    }
}
