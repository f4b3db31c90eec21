ghost use Rattle.std.specs.Prelude.{◌≤◌};
ghost use Rattle.event_graph.specs.Live.{IsLive};
ghost use Rattle.event_graph.specs.Network.{stations, IsGraph};
ghost use Rattle.latest_dates.specs.Laws.{LatestSolve, LatestSolveAsTable, LatestServe, NoneIsLater, NoneIsUnbounded, LatestAreOne};
ghost use Rattle.line_base.specs.declared.event.Parts.{Parts};

/// A law of the definitions: the latest dates solve the graph, with none as later than all, where some table solves
/// it in which every customer is served in time. Where none of them is none, they solve it as a table.
pub fn latest_dates_solve()
    ensures solve { (g : Parts) → 1 ≤ stations g → IsGraph g → IsLive g → LatestSolve g }
    ensures as_table { (g : Parts) → 1 ≤ stations g → IsGraph g → IsLive g → LatestSolveAsTable g }
{}

/// A law of the definitions: by the latest dates every customer is served in time.
pub fn latest_dates_serve()
    ensures { (g : Parts) → 1 ≤ stations g → IsGraph g → LatestServe g }
{}

/// A law of the definitions: no table that solves the graph, and in which every customer is served in time, is
/// anywhere later than the latest dates. So none of them is before the least solution, which is such a table.
pub fn no_dates_are_later()
    ensures { (g : Parts) → IsGraph g → IsLive g → NoneIsLater g }
{}

/// A law of the definitions: where there is no latest date, such a table is as late as one likes.
pub fn none_is_unbounded()
    ensures { (g : Parts) → 1 ≤ stations g → IsGraph g → IsLive g → NoneIsUnbounded g }
{}

/// A law of the definitions: there is one table of latest dates.
pub fn latest_dates_are_one()
    ensures { (g : Parts) → IsGraph g → IsLive g → LatestAreOne g }
{}
