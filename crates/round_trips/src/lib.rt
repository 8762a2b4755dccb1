// Writing a sheet as text and reading it back, and reading a text and writing it back: what comes back is what was there.
#![tactic(auto)]

mod sheet_trip;
#[cfg(test)]
mod tests;
mod text_trip;
mod trip_error;

pub use sheet_trip::write_and_read;
pub use text_trip::read_and_write;
pub use trip_error::TripError;
