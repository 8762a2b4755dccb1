// The calls of a listing: what they are and what they answer. The definitions beside this code say what each call does and
// state the law of listings.
#![tactic(auto)]

mod answers;
mod refusal;
mod words;

pub use answers::{Call, Ending, Figures, Handed, Ran, Replied, Reply, Verdict};
pub use refusal::{Full, RunError};
