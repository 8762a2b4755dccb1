use crate::refusal::{Full, RunError};
use states::State;

// What the station does in a state.
#[derive(Clone, Copy, Debug, PartialEq, Eq)]
pub enum Verdict {
    Up,
    Down,
}

// A state that next handed out, with its verdict.
#[derive(Clone, Copy, PartialEq, Eq)]
pub struct Handed {
    pub state: State,
    pub verdict: Verdict,
}

// How a run ended.
#[derive(Clone, Copy, Debug, PartialEq, Eq)]
pub enum Ending {
    Reached,
    Finished,
    Spent,
    Full,
}

// What a run answers: how it ended, and how many states it handed out itself.
#[derive(Clone, Copy, Debug, PartialEq, Eq)]
pub struct Ran {
    pub ending: Ending,
    pub count: u64,
}

// The reliability lies between lower and upper, in thousand-millionths of the total; how many states were handed out, and how
// many wait.
#[derive(Clone, Copy, Debug, PartialEq, Eq)]
pub struct Figures {
    pub lower: u64,
    pub upper: u64,
    pub handed: u64,
    pub waiting: u64,
}

// A call of a listing; a run with its target in parts per million and its budget of states.
#[derive(Clone, Copy, Debug, PartialEq, Eq)]
pub enum Call {
    Next,
    Run { target: u32, budget: u64 },
    Figures,
}

// What a call answered.
#[derive(Clone, Copy, PartialEq, Eq)]
pub enum Reply {
    // None says 'finished': nothing waited.
    Next(Result<Option<Handed>, Full>),
    Run(Result<Ran, RunError>),
    Figures(Figures),
}

// What a call answered, and the figures after it.
#[derive(Clone, Copy, PartialEq, Eq)]
pub struct Replied {
    pub reply: Reply,
    pub figures: Figures,
}
