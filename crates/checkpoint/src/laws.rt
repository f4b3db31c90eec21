ghost use Rattle.checkpoint.specs.Laws.{SaysOneState};
ghost use Rattle.checkpoint.specs.Length.{HasShortLabels, FitsLimit};
ghost use Rattle.event_graph.specs.Limits.{IsWithinLimits, HasFewArcs};
ghost use Rattle.event_graph.specs.Network.{IsGraph};
ghost use Rattle.line_base.specs.declared.event.Parts.{Parts};

/// A law of the definitions: the texts of different states of a graph, in either format, are different.
///
/// It runs nothing: its contract is the law.
pub fn texts_of_different_states_differ()
    ensures { (g : Parts) → IsGraph g → IsWithinLimits g → SaysOneState g }
{}

/// A law of the definitions: where a graph within the limits has few arcs, and short labels, the text of each state
/// that firings reach fits into a checkpoint, in either format.
///
/// It runs nothing: its contract is the law.
pub fn texts_of_few_arcs_fit()
    ensures { (g : Parts) → IsGraph g → IsWithinLimits g → HasFewArcs g → HasShortLabels g → FitsLimit g }
{}
