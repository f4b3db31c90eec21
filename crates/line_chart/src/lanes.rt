/// The lanes of a machine: the first, counted from 0 over all machines, and how many there are.
#[derive(Clone, Copy)]
pub struct Lanes {
    /// The station of the machine.
    pub station: u32,
    pub first: u64,
    pub count: u64,
}
