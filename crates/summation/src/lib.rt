// The reliability of a small station, summed over all states of its sheet.
#![tactic(auto)]

mod summing;
mod sums;

pub use summing::sum_states;
pub use sums::{SumError, Sums};
