ghost use Rattle.event_graph.specs.Live.{IsLive};
ghost use Rattle.line_chart.specs.Laws.{NoneLeavesEarlier, OneServerLeavesThen, ServersAreFreeAtStarts, AreasAreCounts};
ghost use Rattle.line_chart.specs.Laws.{PartsServeBehindStock, BarsAreOfJobs, EachJobHasOneBar, BarsStayApart};
ghost use Rattle.plant_model.specs.Graph.{graph};
ghost use Rattle.plant_model.specs.Sound.{IsSound};
ghost use Rattle.plant_model.specs.declared.plant.Plant.{Plant};

/// A law of the definitions: a job's start at a machine and its time are together at most its date, and with one server
/// they are its date. A job starts no sooner than the job has left whose server it gets.
pub fn starts_and_dates()
    ensures at_most { (p : Plant) → IsSound p → NoneLeavesEarlier p }
    ensures one_server { (p : Plant) → IsSound p → OneServerLeavesThen p }
    ensures servers { (p : Plant) → IsSound p → ServersAreFreeAtStarts p }
{}

/// A law of the definitions: the part of a job at a station of a stage stands behind the starting stock on the stage's
/// path, and so it is the one that the delivery takes for the job that is that much later.
pub fn parts_serve_behind_stock()
    ensures { (p : Plant) → IsSound p → PartsServeBehindStock p }
{}

/// A law of the definitions: for each job at each machine there is exactly one bar, where it meets the window, from its
/// start on and as long as its time, and there are no other bars.
pub fn each_job_has_one_bar()
    ensures of_jobs { (p : Plant) → BarsAreOfJobs p }
    ensures one_each { (p : Plant) → EachJobHasOneBar p }
{}

/// A law of the definitions: in the least solution of a live plant two bars of a lane never overlap.
pub fn bars_of_a_lane_stay_apart()
    ensures { (p : Plant) → IsSound p → IsLive (graph p) → BarsStayApart p }
{}

/// A law of the definitions: the height of an area at each date of the window is its count.
pub fn areas_are_counts()
    ensures { AreasAreCounts }
{}
