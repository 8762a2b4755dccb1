// The lines of a sheet's text: a reader that gives one line's token at a time, and the numbers in fields.
#![tactic(auto)]

mod cut;
mod fault;
mod field_reader;
mod kind;
mod line;
mod line_error;
mod line_reader;
mod number;
mod token;
mod tokens;

pub use fault::{Fault, Layer, Refusal};
pub use field_reader::FieldReader;
pub use kind::Kind;
pub use line::Line;
pub use line_reader::LineReader;
pub use number::number_in;
pub use token::Token;
