// One line's fields, parts of the text's own bytes: a part's number, grade and cents; a path's numbers with the commas between
// them; the feed's number.
#[derive(Clone, Copy)]
pub enum Token<'a> {
    Part(&'a [u8], &'a [u8], &'a [u8]),
    Path(&'a [u8]),
    Feed(&'a [u8]),
}
