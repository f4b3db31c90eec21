//! Whether a graph is live: an order of its stations in which every arc without a token goes upwards, or a circuit
//! without a token.
#![tactic(auto)]

mod circuit;
mod laws;
mod live;
mod ranking;

pub use laws::{live_graphs_have_an_order, more_tokens_never_later};
pub use live::{Live, NotLive, rank};
