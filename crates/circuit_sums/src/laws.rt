ghost use Rattle.circuit_sums.specs.Laws.{StagesLeadOn, StagesStartAtStations, PathsLeadOn, BoundsHaveCircuits, BoundsHold};
ghost use Rattle.plant_model.specs.Sound.{IsSound};
ghost use Rattle.plant_model.specs.declared.plant.Plant.{Plant};

/// A law of the graph of a plant: the onward arcs of a stage lead from its release through its machines to what it
/// feeds, with its starting stock, and those of the stages of a part of a path from the release of the first to what
/// the last feeds, with theirs.
pub fn onward_arcs_lead_on()
    ensures stages { (p : Plant) → IsSound p → StagesLeadOn p }
    ensures stations { (p : Plant) → IsSound p → StagesStartAtStations p }
    ensures paths { (p : Plant) → IsSound p → PathsLeadOn p }
{}

/// A law of the graph of a plant: where a stage's bound is a number, a card circuit of that number goes through the
/// stage.
pub fn bounds_have_circuits()
    ensures { (p : Plant) → IsSound p → BoundsHaveCircuits p }
{}

/// A law of the graph of a plant: where a stage's bound is a number, that many parts at most stand in the stage in
/// every state that firings reach.
pub fn bounds_hold()
    ensures { (p : Plant) → IsSound p → BoundsHold p }
{}
