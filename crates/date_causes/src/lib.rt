//! Why a date is what it is: the chain of its causes.
#![tactic(auto)]

mod caused;
mod chain;
mod kind;
mod laws;
mod link;
mod making;
mod named;
mod shares;
mod terms;
mod writing;

pub use caused::Causes;
pub use chain::causes;
pub use kind::{ArcKind, kind_of};
pub use laws::{
    arcs_are_of_their_kinds, dates_have_one_chain, dates_sum_their_chains, no_walk_sums_to_more,
    shares_sum_to_dates,
};
pub use link::{Cause, Link};
pub use named::{NoDate, station_of};
