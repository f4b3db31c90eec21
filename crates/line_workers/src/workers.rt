ghost use Rattle.std.specs.Prelude.{◌≡◌, ◌+◌, ◌<◌, ◌≤◌, ◌^◌, length, sum, All};
ghost use Rattle.event_graph.specs.Network.{arc_count};
ghost use Rattle.line_core.specs.Consistent.{firing_count};
ghost use Rattle.line_workers.specs.Burst.{WorkersBurst};
ghost use Rattle.line_workers.specs.Link.{IsRing, HaveMet, AreLinks, links_of};
ghost use Rattle.line_workers.specs.Gather.{Gathers};
ghost use Rattle.line_workers.specs.Counts.{AreCounts};
ghost use Rattle.line_workers.specs.OfWorkers.{turns_among};
ghost use Rattle.line_workers.specs.Meeting.{AreStill, MeetsOn};
ghost use Rattle.line_worker.specs.Worker.{teams_of};
ghost use Rattle.line_worker.specs.Workers.{live_of, graph_of, AreWorkers, AreSameWorkers};
ghost use Rattle.line_base.specs.Limits.{most_workers};
ghost use Rattle.line_worker.specs.Teams.{state_among, AreAllMet};
ghost use Rattle.line_worker.specs.Work.{TurnsBelow, TeamsWorked};

use crate::clearing::clear_workers;
use crate::line::Burst;
use crate::link::{Link, Links, is_inside, link_of};
use crate::threading::Threading;
use crate::work::work_all;
use line_worker::{Gate, Worker};
use live_check::Live;
use std::thread::Threads;

/// How many firings and steps the stations of all workers have made together.
#[derive(Clone, Copy)]
pub(crate) struct Counts {
    pub(crate) fired: u64,
    pub(crate) steps: u64,
}

/// The two ends of a ring between two workers meet.
fn meet_over(workers: &mut [Worker], link: &Link)
    requires { IsRing workers.old link.now }
    ensures { HaveMet link.now workers.old workers.new }
{
    let (from, to) = (&link.from, &link.to);
    let (output, input) = (link.output, link.input);
    if from.worker_number < to.worker_number {
        let (low, high) = workers.split_at_mut(to.worker_number);
        low[from.worker_number].meet(from.number, output, &mut high[0], to.number, input);
    } else {
        let (low, high) = workers.split_at_mut(from.worker_number);
        high[0].meet(
            from.number,
            output,
            &mut low[to.worker_number],
            to.number,
            input,
        );
    }
}

/// The two ends of arc `a` meet, where it leads from one worker to another.
fn meet_on(workers: &mut [Worker], live: &Live, a: u32)
    requires workers { AreWorkers workers.old }
    requires few { length workers.old ≤ most_workers }
    requires made_for { live.now ≡ live_of workers.old }
    requires arc { a < arc_count live.now.graph }
    ensures same { AreSameWorkers workers.old workers.new }
    ensures met { MeetsOn live.now.graph (teams_of workers.old) (teams_of workers.new) a }
{
    let worker_count = workers.len() as u32;
    if is_inside(worker_count, live, a) {
        return;
    }
    let link = link_of(worker_count, live, a);
    meet_over(workers, &link);
}

/// The two ends of every queue meet on this thread.
fn meet_all(workers: &mut [Worker], live: &Live)
    requires workers { AreWorkers workers.old }
    requires few { length workers.old ≤ most_workers }
    requires made_for { live.now ≡ live_of workers.old }
    ensures same { AreSameWorkers workers.old workers.new }
    ensures worked { TeamsWorked (teams_of workers.old) (teams_of workers.new) }
    ensures still { AreStill live.now.graph (teams_of workers.old) (teams_of workers.new) }
    ensures met { AreAllMet live.now.graph (teams_of workers.new) }
{
    // No arc leads from one worker to another.
    if workers.len() == 1 {
        return;
    }
    for a in 0..live.graph().arcs().len() as u32 {
        meet_on(workers, live, a);
    }
}

/// The two ends of each arc of a list meet, of all arcs between two workers.
fn meet_listed(workers: &mut [Worker], links: &[Link])
    requires workers { AreWorkers workers.old }
    requires links { links.now ≡ links_of (graph_of workers.old) (length workers.old) }
    ensures same { AreSameWorkers workers.old workers.new }
    ensures worked { TeamsWorked (teams_of workers.old) (teams_of workers.new) }
    ensures still { AreStill (graph_of workers.old) (teams_of workers.old) (teams_of workers.new) }
    ensures met { AreAllMet (graph_of workers.old) (teams_of workers.new) }
{
    for link in links {
        meet_over(workers, link);
    }
}

/// The two ends of every queue meet on this thread, by the list of the line where it has one.
fn meet_by(workers: &mut [Worker], live: &Live, links: &Links)
    requires workers { AreWorkers workers.old }
    requires few { length workers.old ≤ most_workers }
    requires made_for { live.now ≡ live_of workers.old }
    requires links { AreLinks live.now.graph (length workers.old) links.now }
    ensures same { AreSameWorkers workers.old workers.new }
    ensures worked { TeamsWorked (teams_of workers.old) (teams_of workers.new) }
    ensures still { AreStill live.now.graph (teams_of workers.old) (teams_of workers.new) }
    ensures met { AreAllMet live.now.graph (teams_of workers.new) }
{
    match links {
        Links::Listed(links) => meet_listed(workers, links),
        Links::Unlisted => meet_all(workers, live),
    }
}

/// How many dates the stations of all workers have made together.
fn dates_of(workers: &[Worker]) -> u64
    requires workers { AreWorkers workers.now }
    requires few { length workers.now ≤ most_workers }
    ensures { result ≡ firing_count (state_among (graph_of workers.now) (teams_of workers.now)) }
{
    let mut dates = 0;
    for worker in workers {
        dates += worker.dates();
    }
    dates
}

/// How many turns the stations of all workers have made together.
fn turns_of(workers: &[Worker]) -> u64
    requires workers { AreWorkers workers.now }
    requires few { length workers.now ≤ most_workers }
    requires turns { All (λ worker. TurnsBelow (2 ^ 40) worker.team) workers.now }
    ensures { result ≡ sum (turns_among (graph_of workers.now) (teams_of workers.now)) }
{
    let mut turns = 0;
    for worker in workers {
        turns += worker.steps();
    }
    turns
}

/// A burst of all workers, and its counts. It goes by threads where that has paid.
pub(crate) fn burst_of<R: Threads + Sync, G: Gate>(
    rt: &R,
    workers: &mut [Worker],
    live: &Live,
    gate: &G,
    links: &Links,
    counts: &mut Counts,
    threading: &mut Threading,
) -> Burst
    requires workers { AreWorkers workers.old }
    requires few { length workers.old ≤ most_workers }
    requires met { AreAllMet (graph_of workers.old) (teams_of workers.old) }
    requires made_for { live.now ≡ live_of workers.old }
    requires links { AreLinks live.now.graph (length workers.old) links.now }
    requires counts { AreCounts counts.old workers.old }
    requires turns { All (λ worker. TurnsBelow (2 ^ 38) worker.team) workers.old }
    ensures counts { AreCounts counts.new workers.new }
    ensures burst { WorkersBurst workers.old workers.new }
    ensures fired { firing_count (state_among (graph_of workers.old) (teams_of workers.new)) ≡
        firing_count (state_among (graph_of workers.old) (teams_of workers.old)) + result.fired }
    ensures steps { sum (turns_among (graph_of workers.old) (teams_of workers.new)) ≡
        sum (turns_among (graph_of workers.old) (teams_of workers.old)) + result.steps }
{
    let at_once = threading.begins_threads(workers.len());
    let looks = work_all(rt, workers, live, gate, at_once);
    meet_by(workers, live, links);
    let fired = dates_of(workers);
    let steps = turns_of(workers);
    let fired_since = fired - counts.fired;
    let steps_since = steps - counts.steps;
    *counts = Counts { fired, steps };
    threading.note(looks, fired_since);
    Burst {
        fired: fired_since,
        steps: steps_since,
    }
}

/// Brings the workers of a line together after their sweeps: the turns of the stations count from 0 again, and the ends
/// of every queue meet. Answers how many firings have been made.
pub(crate) fn gather_workers(workers: &mut [Worker], live: &Live) -> u64
    requires workers { AreWorkers workers.old }
    requires made_for { live.now ≡ live_of workers.old }
    ensures { Gathers live.now workers.old workers.new result }
{
    clear_workers(workers);
    meet_all(workers, live);
    dates_of(workers)
}
