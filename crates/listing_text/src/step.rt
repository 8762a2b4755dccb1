use calls::{Figures, Handed};

// A step of a listing: the state that next handed out, and the figures after it.
#[derive(Clone, Copy)]
pub(crate) struct Step {
    pub(crate) handed: Handed,
    pub(crate) figures: Figures,
}
