ghost use Rattle.std.specs.Prelude.{◌≡◌, true};
ghost use Rattle.card_sizing.specs.Laws.{CountsAreSound, MoreCardsServe, CountsInOrderAreOne};
ghost use Rattle.card_sizing.specs.Sized.{has_single_count};
ghost use Rattle.plant_model.specs.Sound.{IsSound};
ghost use Rattle.plant_model.specs.declared.plant.Plant.{Plant};

/// A law of the definitions: a sound plant that has a single count is sound with each count from the lowest to 10,000.
pub fn sized_plants_are_sound()
    ensures { (p : Plant) → IsSound p → has_single_count p ≡ true → CountsAreSound p }
{}

/// A law of the definitions: where a count of cards serves, each greater one up to 10,000 serves too. So halving finds
/// the least. It rests on the law *More tokens, never later*.
pub fn more_cards_serve()
    ensures { (p : Plant) → IsSound p → has_single_count p ≡ true → MoreCardsServe p }
{}

/// A law of the definitions: two answers of `least_each` for one plant and one wait have the same counts.
pub fn counts_in_order_are_one()
    ensures { (p : Plant) → CountsInOrderAreOne p }
{}
