/// Why an answer isn't written whole.
#[derive(Clone, Copy)]
pub enum Unwritten {
    /// The sink failed, behind a prefix.
    Failed,
    /// Memory ran out, behind the first rows of a curve.
    NoMemory,
}
