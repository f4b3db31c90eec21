//! How the workers of a run go on: how many there are, by which threads they sweep, who waits, and when they meet.

pub(crate) mod apart;
pub(crate) mod bursts;
pub(crate) mod long_burst;
pub(crate) mod paying;
pub(crate) mod placing;
pub(crate) mod standing;
pub(crate) mod sweeping;
