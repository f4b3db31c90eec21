/// Where the tokens of a queue come from.
#[derive(Clone, Copy)]
pub struct Source {
    /// The station whose dates they are, by its number among those of the worker.
    pub station: u32,
    /// How much later than its date a token is, in the plant's unit.
    pub delay: u64,
}
