/// The dates that a picture shows: from the first on, and before the end.
#[derive(Clone, Copy)]
pub struct Window {
    /// The first date.
    pub from: u64,
    /// The date at which it ends, above the first.
    pub to: u64,
}
