ghost use Rattle.std.specs.Prelude.{ℕ, ◌<◌};
ghost use Rattle.date_causes.specs.Kinds.{kind_at, IsOfKind};
ghost use Rattle.date_causes.specs.Laws.{ChainsSumToDates, ChainsAreWalks, NoWalkSumsToMore, DatesHaveOneChain, SharesSumToDates};
ghost use Rattle.event_graph.specs.Least.{IsLeast};
ghost use Rattle.event_graph.specs.Live.{IsLive};
ghost use Rattle.event_graph.specs.Network.{IsGraph, arc_count};
ghost use Rattle.event_graph.specs.Table.{Table};
ghost use Rattle.line_base.specs.declared.event.Parts.{Parts};
ghost use Rattle.plant_model.specs.Graph.{graph};
ghost use Rattle.plant_model.specs.Sound.{IsSound};
ghost use Rattle.plant_model.specs.declared.plant.Plant.{Plant};

/// A law of the definitions: each date is the sum of the amounts of its chain of causes, which are those of a walk that
/// ends there and begins at a demand or a token of the start.
pub fn dates_sum_their_chains()
    ensures sums { (g : Parts) (x : Table) → ChainsSumToDates g x }
    ensures walks { (g : Parts) (x : Table) → ChainsAreWalks g x }
{}

/// A law of the definitions: in a least solution no walk that ends at a date and begins at a demand or a token of the
/// start sums to more than the date.
pub fn no_walk_sums_to_more()
    ensures { (g : Parts) (x : Table) → IsLeast g x → NoWalkSumsToMore g x }
{}

/// A law of the definitions: in the least solution of a live graph each date has a chain of causes, and one alone.
pub fn dates_have_one_chain()
    ensures { (g : Parts) (x : Table) → IsGraph g → IsLive g → IsLeast g x → DatesHaveOneChain g x }
{}

/// A law of the definitions: what all stations have added to a date sums to it.
pub fn shares_sum_to_dates()
    ensures { (g : Parts) (x : Table) → SharesSumToDates g x }
{}

/// A law of the definitions: an arc of a sound plant's graph has what its kind says.
pub fn arcs_are_of_their_kinds()
    ensures { (p : Plant) → IsSound p → (a : ℕ) → a < arc_count (graph p) → IsOfKind p a (kind_at p a) }
{}
