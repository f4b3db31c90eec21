/// A job, and how long it waits for its delivery, in the plant's unit.
#[derive(Clone, Copy)]
pub struct LateJob {
    pub job: u32,
    pub wait: u64,
}
