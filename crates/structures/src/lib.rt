// The wiring of a station: what says in which states it works. Structures stand behind one trait, and layers are structures
// over any structure.
#![tactic(auto)]

mod bypass;
mod effect;
mod feed;
mod given;
mod layer;
mod path_list;
mod quorum;
mod refusal;
mod structure;

pub use bypass::Bypass;
pub use effect::Effect;
pub use feed::Feed;
pub use given::Condition;
pub use layer::Layer;
pub use path_list::PathList;
pub use quorum::Quorum;
pub use refusal::PathListError;
pub use structure::Structure;
