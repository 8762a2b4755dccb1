// Lists of calls carried out on a listing of their own.
#![tactic(auto)]

mod carrying;
mod replayed;

pub use carrying::replay;
pub use replayed::Replayed;
