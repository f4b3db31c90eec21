use line_core::State;
use live_check::Live;

/// How a line begins.
#[derive(Clone, Copy)]
pub struct Start<'a> {
    /// What the line runs.
    pub live: &'a Live,
    /// The state from which its stations go on, one of the same graph.
    pub state: &'a State,
    /// How many workers it has, 1 to 16.
    pub worker_count: u32,
    /// How much room a ring has beyond the tokens with which its arc starts, 1 to 10,000, if it has a bound. The tokens
    /// of the state have to fit.
    pub room: Option<u32>,
}
