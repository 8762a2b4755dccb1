// Reading a sheet's text: what it holds, or exactly what is wrong with it and where.
#![tactic(auto)]

mod book;
mod found;
mod numbers;
mod parts;
mod path;
mod reading;
mod stage;

pub use found::Found;
pub use reading::read;
pub use stage::Stage;
