// States of a station, which are sets of failed parts; their masses and shares on a sheet, and the steps from one to the next.
#![tactic(auto)]

mod state;
mod weighed;

pub use state::State;
pub use state::masses::total_mass;
pub use weighed::Weighed;
