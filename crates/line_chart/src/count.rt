/// What an area shows: how many there are of these at a date. Stages are numbered from 0.
#[derive(Clone, Copy)]
pub enum Count {
    /// The parts of a stage.
    Parts(u32),
    /// Those of them that are in process or on their way.
    UnderWay(u32),
    /// The demands that are not delivered.
    Backlog,
}
