// The listing of a station's states, foremost first, and the figures between which its reliability lies.
#![tactic(auto)]

mod aim;
mod listing;
mod not_opened;
mod queue;
mod stopped;
mod waiting;

pub use listing::Listing;
pub use not_opened::NotOpened;
pub use stopped::Stopped;
