// The network structure: links between masts, which join two terminals or do not.
#![tactic(auto)]

mod link;
mod mast;
mod masts;
mod network;
mod refusal;
mod wire;

pub use link::Link;
pub use network::Network;
pub use refusal::NetworkError;
