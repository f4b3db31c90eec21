ghost use Rattle.line_workers.specs.Laws.{GrownIsReached, SweptWorkersAreWorkers, SweepsLetLogsGrow, SweepsFollowSweeps};

/// A law of the definitions: logs that grow from a reached state, each new date by its station's own equation with
/// saturating sums over the tokens that were put on its arcs, are the logs of a reached state.
///
/// Source: Baccelli, Cohen, Olsder and Quadrat, Synchronization and Linearity: a live event graph gets the same
/// dates in every order of its firings.
pub fn logs_that_grow_from_a_state_are_reached()
    ensures { GrownIsReached }
{}

/// A law of the definitions: the workers that a line hands out are the workers of one line still after any sweeps of
/// each, so that `Line::gather` takes them.
pub fn swept_workers_are_workers()
    ensures { SweptWorkersAreWorkers }
{}

/// A law of the definitions: sweeps add dates at the ends of the logs of all stations, and change no earlier one.
pub fn sweeps_let_logs_grow()
    ensures { SweepsLetLogsGrow }
{}

/// A law of the definitions: what a worker is after some sweeps and then some more, it is after sweeps.
pub fn sweeps_follow_sweeps()
    ensures { SweepsFollowSweeps }
{}
