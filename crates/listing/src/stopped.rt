use calls::Figures;

// What is left of a listing that was stopped: its pile and its ranking, for another listing, and its last figures. It is moved,
// never copied.
#[derive(Drop)]
pub struct Stopped<S, R> {
    pub pile: S,
    pub ranking: R,
    pub figures: Figures,
}
