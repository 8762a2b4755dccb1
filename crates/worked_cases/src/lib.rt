// Cases worked by hand, shown of the definitions themselves.
#![tactic(auto)]

#[cfg(test)]
mod tests;

ghost use Rattle.worked_cases.specs.Worked.{WorkedCases};

// Answers nothing: what it says is its promise, that the definitions give every worked case.
#[tactic(auto, using(crate::proofs::Worked::worked))]
pub fn worked_cases()
    ensures { WorkedCases }
{}
