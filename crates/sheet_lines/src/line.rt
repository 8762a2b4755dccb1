use crate::token::Token;

// One line of a text: its token, and its number, counted from 1.
#[derive(Clone, Copy)]
pub struct Line<'a> {
    pub token: Token<'a>,
    pub number: usize,
}
