// The text that a listing of a sheet's text gives: a line for each state with the figures after it, or the line of its refusal.
#![tactic(auto)]

mod reading;
mod refusing;
mod rows;
mod step;
mod stepping;

pub use reading::list_text;
pub use stepping::list_station;
