ghost use Rattle.event_graph.specs.Laws.{HasOneLeast, LeastIsGreatest, StartsFull, KeepsCircuits};
ghost use Rattle.event_graph.specs.Network.{IsGraph};
ghost use Rattle.event_graph.specs.Reached.{Reached};
ghost use Rattle.event_graph.specs.State.{start};
ghost use Rattle.line_base.specs.declared.event.Parts.{Parts};

/// A law of the definitions: a graph has at most one least solution.
pub fn one_least_solution()
    ensures { (g : Parts) → HasOneLeast g }
{}

/// A law of the definitions: each date of a graph's least solution is the greatest of its terms. The feed's is the
/// demand date; that of another station is at least the term of each arc into it, and is one of them.
pub fn least_dates_are_greatest_terms()
    ensures { (g : Parts) → IsGraph g → LeastIsGreatest g }
{}

/// A law of the definitions: the start is reached.
pub fn start_is_reached()
    ensures { (g : Parts) → Reached g (start g) }
{}

/// A law of the definitions: at the start every circuit has its tokens, and no firing changes their number.
pub fn circuits_keep_their_tokens()
    ensures start { (g : Parts) → StartsFull g }
    ensures firing { (g : Parts) → KeepsCircuits g }
{}
