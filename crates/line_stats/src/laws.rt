ghost use Rattle.line_stats.specs.Laws.{KeepsJobsInOrder, DeliversOnDemand, StaysBounded};
ghost use Rattle.plant_model.specs.Sound.{IsSound};
ghost use Rattle.plant_model.specs.declared.plant.Plant.{Plant};

/// A law of the definitions: in the least solution of a plant's graph the dates of a station don't decrease from job to
/// job. So how many jobs a station has done by a date is found by halving.
pub fn jobs_stay_in_order()
    ensures { (p : Plant) → IsSound p → KeepsJobsInOrder p }
{}

/// A law of the definitions: no job is delivered before its demand. So each job's wait is the whole difference.
pub fn deliveries_follow_demands()
    ensures { (p : Plant) → IsSound p → DeliversOnDemand p }
{}

/// A law of the definitions, *Bounds hold*: at every date, what is in process, on its travel and in stock in a stage is
/// together no more than the stage's bound: its cards under kanban and extended kanban, the line's under CONWIP.
pub fn stages_stay_bounded()
    ensures { (p : Plant) → IsSound p → StaysBounded p }
{}
