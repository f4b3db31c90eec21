/// A watcher of the workers' sweeps. Each worker passes it before each of its sweeps, in the thread in which it sweeps. It
/// answers nothing.
pub trait Gate: Sync {
    /// A worker is about to sweep: to give each of its stations a turn.
    fn pass(&self, worker: u32);
}

/// The gate that does nothing.
#[derive(Clone, Copy)]
pub struct FreeGate;

impl Gate for FreeGate {
    fn pass(&self, _worker: u32) {}
}
