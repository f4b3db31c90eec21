ghost use Rattle.line_graph.specs.Laws.{ExtendedIsKanban, ExtendedIsBaseStock};
ghost use Rattle.line_graph.specs.MoreCards.{MoreOnEachArcNeverLater, MoreCardsNeverLater};
ghost use Rattle.live_check.specs.MoreTokens.{ListsKeepOrder};
ghost use Rattle.plant_model.specs.Graph.{graph};
ghost use Rattle.plant_model.specs.Sound.{IsSound};
ghost use Rattle.plant_model.specs.declared.plant.Plant.{Plant};

/// A law of the definitions: in a plant's graph each station with a list of times has an arc to itself with one token,
/// so that its jobs stay in order.
pub fn plants_keep_lists_in_order()
    ensures { (p : Plant) → ListsKeepOrder (graph p) }
{}

/// A law of the policies: a plant under extended kanban in which each stage has as many cards as stock has the least
/// solution that it has under kanban. A card that comes back has passed a delivery, and so a demand.
pub fn extended_is_kanban()
    ensures { (p : Plant) → IsSound p → ExtendedIsKanban p }
{}

/// A law of the policies: a plant under extended kanban in which each stage has a card for each part of its stock and
/// for each job has the least solution that it has under base stock. No job waits for a card then.
pub fn extended_is_base_stock()
    ensures { (p : Plant) → IsSound p → ExtendedIsBaseStock p }
{}

/// The law *More tokens, never later*, on plants: where two plants differ in cards and stock alone, the first is live,
/// and each arc of the second one's graph has at least as many tokens, the second is live, and no date of its least
/// solution is later. So it is where the second has more cards and the same stock (Dallery and Liberopoulos 2000 for
/// the cards).
pub fn more_cards_never_later()
    ensures arcs { (few many : Plant) → IsSound few → MoreOnEachArcNeverLater few many }
    ensures cards { (few many : Plant) → IsSound few → MoreCardsNeverLater few many }
{}
