ghost use Rattle.std.specs.Prelude.{◌≡◌, ◌<◌, ◌≤◌, ◌^◌, ◌↔◌, IsTrue, IfOk, length};
ghost use Rattle.line_base.specs.Limits.{most_stations, most_workers};
ghost use Rattle.event_graph.specs.Network.{arc_count};
ghost use Rattle.line_workers.specs.Link.{seat_among, link_of, links_of, IsInside};
ghost use Rattle.line_worker.specs.Teams.{index_in};

use line_worker::{first_of, worker_of};
use live_check::Live;
use std::alloc::{AllocError, Global};

/// Where a station stands: its worker, and its number in the worker's team.
#[derive(Clone, Copy)]
pub(crate) struct Seat {
    pub(crate) worker_number: usize,
    pub(crate) number: u32,
}

/// Where the two ends of an arc's queue stand: a station with the number of the output, and one with that of the input.
#[derive(Clone, Copy)]
pub(crate) struct Link {
    pub(crate) from: Seat,
    pub(crate) output: u32,
    pub(crate) to: Seat,
    pub(crate) input: u32,
}

/// How a line finds the arcs between two workers at a meeting.
#[derive(Drop)]
pub(crate) enum Links {
    /// By a list of them all, which was made with the line.
    Listed(Vec<Link>),
    /// By a look at each arc: a line that was gathered has no list, since that takes memory.
    Unlisted,
}

/// Where a number stands in a list; behind its end where the list doesn't have it.
fn index_in(list: &[u32], number: u32) -> u32
    requires { length list.now < 2 ^ 32 }
    ensures { result ≡ index_in list.now number }
{
    list.iter().position(|x| *x == number).unwrap_or(list.len()) as u32
}

/// Where station `t` stands among this many workers, which have this many stations.
pub(crate) fn seat_of(worker_count: u32, stations: u32, t: u32) -> Seat
    requires some { 1 ≤ worker_count }
    requires few { worker_count ≤ most_workers }
    requires stations { stations ≤ most_stations }
    requires station { t < stations }
    ensures { result ≡ seat_among worker_count stations t }
{
    let worker_number = worker_of(worker_count, stations, t);
    Seat {
        worker_number: worker_number as usize,
        number: t - first_of(worker_count, stations, worker_number),
    }
}

/// Whether one worker has both stations of arc `a`.
pub(crate) fn is_inside(worker_count: u32, live: &Live, a: u32) -> bool
    requires few { worker_count ≤ most_workers }
    requires arc { a < arc_count live.now.graph }
    ensures { IsTrue result ↔ IsInside live.now.graph worker_count a }
{
    let graph = live.graph();
    let stations = graph.stations();
    let arc = graph.arc(a);
    worker_of(worker_count, stations, arc.from) == worker_of(worker_count, stations, arc.to)
}

/// Where the two ends of arc `a` stand.
pub(crate) fn link_of(worker_count: u32, live: &Live, a: u32) -> Link
    requires some { 1 ≤ worker_count }
    requires few { worker_count ≤ most_workers }
    requires arc { a < arc_count live.now.graph }
    ensures { result ≡ link_of live.now.graph worker_count a }
{
    let graph = live.graph();
    let stations = graph.stations();
    let arc = graph.arc(a);
    Link {
        from: seat_of(worker_count, stations, arc.from),
        output: index_in(graph.outs(arc.from), a),
        to: seat_of(worker_count, stations, arc.to),
        input: index_in(graph.ins(arc.to), a),
    }
}

/// Where the ends of each arc between two workers stand, in the order of the arcs.
pub(crate) fn links_of(
    alloc: Global,
    live: &Live,
    worker_count: u32,
) -> Result<Vec<Link>, AllocError>
    requires some { 1 ≤ worker_count }
    requires few { worker_count ≤ most_workers }
    ensures { IfOk result (λ links. links.items ≡ links_of live.now.graph worker_count) }
{
    let mut links = Vec::new(alloc);
    for a in 0..live.graph().arcs().len() as u32 {
        if is_inside(worker_count, live, a) {
            continue;
        }
        links.push(link_of(worker_count, live, a))?;
    }
    Ok(links)
}
