ghost use Rattle.std.specs.Prelude.{◌≡◌, ℕ, ◌<◌, true};
ghost use Rattle.card_sizing.specs.Sized.{has_single_count};
ghost use Rattle.event_graph.specs.Table.{Table};
ghost use Rattle.line_stats.specs.Counts.{last_date};
ghost use Rattle.line_summary.specs.Laws.{DatesAddUp, StaysAddUp, PartsAddUp, BacklogAddsUp, IsBusyWithinServers, HasBoundedMeans, HasNoMeans, HasNoShares, HasOneCurve, IsNearestAbove, IsNearestBelow};
ghost use Rattle.plant_model.specs.Graph.{graph};
ghost use Rattle.plant_model.specs.Sound.{IsSound};
ghost use Rattle.plant_model.specs.declared.plant.Plant.{Plant};

/// Little's law: a count, added up at each date, is the sum of the times for which jobs are counted. It holds of any
/// list of dates, so of what is in process and of the backlog.
pub fn counts_add_up_to_times()
    ensures dates { DatesAddUp }
    ensures stays { StaysAddUp }
    ensures process { (p : Plant) → IsSound p → PartsAddUp p }
    ensures backlog { (p : Plant) → IsSound p → BacklogAddsUp p }
{}

/// A law of the definitions: no machine is busier than its servers allow.
pub fn busy_within_servers()
    ensures { (p : Plant) → IsSound p → IsBusyWithinServers p }
{}

/// A law of the definitions: the mean parts of a stage, in process, on their travel and in stock together, are at
/// most its bound.
pub fn means_stay_bounded()
    ensures { (p : Plant) → IsSound p → HasBoundedMeans p }
{}

/// A law of the definitions: where the last date is 0, the throughput, all means over time and all shares are `none`.
pub fn empty_horizons_have_no_means()
    ensures means { (p : Plant) (x : Table) → last_date (graph p) x ≡ 0 → HasNoMeans p x }
    ensures shares { (p : Plant) (x : Table) → last_date (graph p) x ≡ 0 → HasNoShares p x }
{}

/// A law of the definitions: a ratio is given to the nearest thousandth, halves up.
pub fn ratios_are_rounded()
    ensures above { (part whole : ℕ) → 0 < whole → IsNearestAbove part whole }
    ensures below { (part whole : ℕ) → 0 < whole → IsNearestBelow part whole }
{}

/// A law of the definitions: a plant has one curve, since all least solutions of a graph have the same figures. So the
/// rows of a curve don't depend on the threads that found them.
pub fn plants_have_one_curve()
    ensures { (p : Plant) → IsSound p → has_single_count p ≡ true → HasOneCurve p }
{}
