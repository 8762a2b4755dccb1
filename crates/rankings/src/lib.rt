// Rankings of the states of a sheet: which of two states comes first.
#![tactic(auto)]

mod ahead;
mod by_points;
mod exact;
mod key_ranking;
mod ranking;

pub use ahead::{is_ahead, is_ahead_by_own_keys};
pub use by_points::Points;
pub use exact::Exact;
pub use key_ranking::{KeyRanking, is_ahead_by_keys};
pub use ranking::Ranking;
