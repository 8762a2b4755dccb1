ghost use Rattle.std.specs.Prelude.{Some, codes};

use std::error::Error;
use std::fmt;

// No memory to open a listing: its pile and its ranking come back.
#[derive(Clone, Copy, PartialEq, Eq, Drop)]
pub struct NotOpened<S, R> {
    pub pile: S,
    pub ranking: R,
}

// By hand, since a derive would ask it of pile and ranking.
impl<S, R> fmt::Debug for NotOpened<S, R> {
    ghost debug_output = { λ _. Some (codes "NotOpened") };

    fn fmt<W: fmt::Write>(&self, f: &mut fmt::Formatter<W>) -> fmt::Result {
        f.write_str("NotOpened")
    }
}

impl<S, R> fmt::Display for NotOpened<S, R> {
    ghost output = { λ _. Some (codes "no memory to open a listing") };

    fn fmt<W: fmt::Write>(&self, f: &mut fmt::Formatter<W>) -> fmt::Result {
        f.write_str("no memory to open a listing")
    }
}

impl<S: Drop, R: Drop> Error for NotOpened<S, R> {}
