ghost use Rattle.plant_model.specs.Sound.{IsSound, IsSoundPlant};
ghost use Rattle.plant_model.specs.declared.plant.Plant.{Plant};

/// A law of the definitions: a plant of which nothing is refused is one of which the plain facts hold, and the other
/// way round. So the facts are a full account of what `plant_check::check` takes.
pub fn soundness_is_plain()
    ensures facts { (p : Plant) → IsSound p → IsSoundPlant p }
    ensures enough { (p : Plant) → IsSoundPlant p → IsSound p }
{}
