// Grades, part numbers, and the sheet of a station's parts, filled as a draft and then sealed.
#![tactic(auto)]

mod draft;
mod grade;
mod part;
mod part_number;
mod refusal;
mod refusal_number;
mod sealed;

pub use draft::Draft;
pub use grade::{Grade, GradeTooHigh};
pub use part::Part;
pub use part_number::PartNumber;
pub use refusal::{AddError, PartNumberError};
pub use refusal_number::RefusalNumber;
pub use sealed::Sheet;
