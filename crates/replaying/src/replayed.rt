use calls::Replied;

// What a list of calls gave: all their answers, each with the figures after it, and the pile and ranking they were made with.
#[derive(Drop)]
pub struct Replayed<S, R> {
    pub pile: S,
    pub ranking: R,
    pub replies: Vec<Replied>,
}
