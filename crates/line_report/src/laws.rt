ghost use Rattle.line_report.specs.Laws.{HasOneReport, HaveOneText};
ghost use Rattle.line_stats.specs.PlantDates.{PlantDates};
ghost use Rattle.plant_model.specs.Sound.{IsSound};
ghost use Rattle.plant_model.specs.declared.plant.Plant.{Plant};

/// The law *Schedules agree*, to the bytes: the least solutions of a plant's graph have one report, and any two reports
/// of one plant have the same text. So a run writes the same bytes in whatever order its stations fire.
///
/// It runs nothing: its contract is the law.
pub fn schedules_agree()
    ensures tables { (p : Plant) → IsSound p → HasOneReport p }
    ensures reports { (r s : PlantDates) → HaveOneText r s }
{}
