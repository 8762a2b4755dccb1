// Writing a sheet with its paths and its feed as text.
#![tactic(auto)]

mod write_error;
mod writer;
mod writing;

pub use write_error::WriteError;
pub use writing::write;
