ghost use Rattle.std.specs.Prelude.{◌≤◌};
ghost use Rattle.event_graph.specs.Limits.{IsWithinLimits};
ghost use Rattle.event_graph.specs.Live.{IsLive};
ghost use Rattle.event_graph.specs.Network.{stations, IsGraph};
ghost use Rattle.event_graph.specs.Reached.{Reached};
ghost use Rattle.event_graph.specs.State.{State};
ghost use Rattle.line_base.specs.declared.event.Parts.{Parts};
ghost use Rattle.line_core.specs.Consistent.{IsConsistent};
ghost use Rattle.line_core.specs.Laws.{EndsLeast, HasLeast, DeadStationsStayIdle, KeepsNumbers, StaysEarly};

/// A law of the definitions: in every state that firings reach each place holds what the logs leave there, and each
/// date is the one that the equations give over the logs.
pub fn reached_states_are_consistent()
    ensures { (g : Parts) (s : State) → Reached g s → IsConsistent g s }
{}

/// A law of the definitions: where firings have made every date, the logs are the least solution.
pub fn finished_states_are_least()
    ensures { (g : Parts) → 1 ≤ stations g → IsGraph g → EndsLeast g }
{}

/// A law of the definitions: a live graph has a least solution, and each of its dates is the greatest of its terms.
pub fn live_graphs_have_a_least_solution()
    ensures { (g : Parts) → IsGraph g → IsLive g → HasLeast g }
{}

/// A law of the definitions: no station on a circuit without a token ever fires, whatever else does. So a graph that
/// isn't live never makes all of its dates.
pub fn dead_stations_stay_idle()
    ensures { (g : Parts) → DeadStationsStayIdle g }
{}

/// A law of the definitions: in every state that firings reach each circuit has the tokens that it has at the start.
pub fn circuits_keep_their_number()
    ensures { (g : Parts) → KeepsNumbers g }
{}

/// A law of the definitions: within the limits no date of a log or a place is above 2,001,000,000,000,000.
pub fn dates_stay_early()
    ensures { (g : Parts) → IsWithinLimits g → StaysEarly g }
{}
