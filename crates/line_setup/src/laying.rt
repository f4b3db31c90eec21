ghost use Rattle.std.specs.Prelude.{◌≡◌, ◌≢◌, ◌+◌, ◌<◌, ◌≤◌, ◌^◌, [], None, Some, map, length, replicate, IfOk, OnOk, slice_set};
ghost use Rattle.line_setup.specs.Making.{room_on, FitsRoom, MayHold, HasRing, QueueEnds, outlets_at, inlets_at, firsts_at, arcs_at, with_one, with_ends, without, putter, taker};
ghost use Rattle.line_setup.specs.Start.{MayBegin, AreLaidFor, HasLaid};
ghost use Rattle.event_graph.specs.Network.{stations, jobs, arc, arc_count, IsGraph};
ghost use Rattle.event_graph.specs.State.{place};
ghost use Rattle.line_base.specs.declared.limits.TheConstants.{MAX_CARDS};

use crate::start::Start;
use card_queue::queue;
use line_base::Date;
use line_core::State;
use line_worker::worker_of;
use live_check::Live;
use room_ring::room_ring;
use station_step::{Inlet, Outlet};
use std::alloc::{AllocError, Global};
use std::marker::Model;
use std::mem;

/// The ends of the queues of the arcs: for each station its outlets and its inlets, in the order of the arcs, and for
/// each worker the tokens with which the queues of its shelf begin, and the arcs whose queues they are; and how much
/// room a ring has beyond the tokens with which its arc starts, if it has a bound.
#[derive(Drop)]
pub(crate) struct Ends {
    outlets: Vec<Vec<Outlet>>,
    inlets: Vec<Vec<Inlet>>,
    shelves: Vec<Vec<Vec<Date>>>,
    arcs: Vec<Vec<u32>>,
    room: Option<u32>,
}

impl Model for Ends {
    ghost use Rattle.std.specs.Prelude.{map};
    ghost use Rattle.line_setup.specs.Making.{QueueEnds};

    ghost Value = { QueueEnds };

    ghost view = { λ e. record {
      outlets = map (λ l. l.items) e.outlets.items;
      inlets = map (λ l. l.items) e.inlets.items;
      shelves = map (λ l. map (λ tokens. tokens.items) l.items) e.shelves.items;
      arcs = map (λ l. l.items) e.arcs.items;
      room = e.room;
    } };
}

/// The tokens on arc `a`, from the front to the back.
fn tokens_on(alloc: Global, live: &Live, state: &State, a: u32) -> Result<Vec<Date>, AllocError>
    requires made_for { live.now.graph ≡ state.now.graph }
    requires arc { a < arc_count live.now.graph }
    ensures tokens { IfOk result (λ tokens. tokens.items ≡ place state.now.state a) }
    ensures few { length (place state.now.state a) + jobs live.now.graph < 2 ^ 32 }
{
    state.place(live, a).collect(alloc)
}

/// How many tokens may be put on the ring of arc `a`.
fn room_on(live: &Live, state: &State, a: u32) -> u32
    requires made_for { live.now.graph ≡ state.now.graph }
    requires arc { a < arc_count live.now.graph }
    ensures { result ≡ room_on live.now.graph state.now.state a }
{
    live.graph().jobs() - state.log(live.graph().arc(a).from).len() as u32
}

/// How many tokens arc `a` starts with.
fn tokens_at_start(live: &Live, a: u32) -> u32
    requires { a < arc_count live.now.graph }
    ensures tokens { result ≡ (arc live.now.graph a).tokens }
    ensures few { result ≤ MAX_CARDS }
{
    live.graph().tokens(a)
}

/// A ring for arc `a` with room for the tokens with which the arc starts, and for `room` more.
fn bounded_ring(
    alloc: Global,
    live: &Live,
    state: &State,
    a: u32,
    room: u32,
) -> Result<(Outlet, Inlet), AllocError>
    requires made_for { live.now.graph ≡ state.now.graph }
    requires arc { a < arc_count live.now.graph }
    requires fits { FitsRoom room live.now.graph state.now.state }
    ensures { IfOk result
        (λ ends. HasRing (Some room) live.now.graph state.now.state a ends.0 ends.1) }
{
    let tokens = tokens_on(alloc, live, state, a)?;
    let (put, take) = room_ring(alloc, &tokens, tokens_at_start(live, a) + room)?;
    Ok((Outlet::Room(put), Inlet::Room(take)))
}

/// A ring for arc `a` whose room has no bound.
fn unbounded_ring(
    alloc: Global,
    live: &Live,
    state: &State,
    a: u32,
) -> Result<(Outlet, Inlet), AllocError>
    requires made_for { live.now.graph ≡ state.now.graph }
    requires arc { a < arc_count live.now.graph }
    ensures { IfOk result (λ ends. HasRing None live.now.graph state.now.state a ends.0 ends.1) }
{
    let tokens = tokens_on(alloc, live, state, a)?;
    let (put, take) = queue(alloc, &tokens, room_on(live, state, a))?;
    Ok((Outlet::Ring(put), Inlet::Ring(take)))
}

/// A ring for arc `a`, of this kind.
fn new_ring(
    alloc: Global,
    live: &Live,
    state: &State,
    a: u32,
    room: Option<u32>,
) -> Result<(Outlet, Inlet), AllocError>
    requires made_for { live.now.graph ≡ state.now.graph }
    requires arc { a < arc_count live.now.graph }
    requires fits { MayHold room live.now.graph state.now.state }
    ensures { IfOk result (λ ends. HasRing room live.now.graph state.now.state a ends.0 ends.1) }
{
    match room {
        Some(room) => bounded_ring(alloc, live, state, a, room),
        None => unbounded_ring(alloc, live, state, a),
    }
}

/// This many empty lists.
fn empty_lists<T: Drop>(alloc: Global, count: u32) -> Result<Vec<Vec<T>>, AllocError>
    ensures { IfOk result (λ lists. map (λ l. l.items) lists.items ≡ replicate count []) }
{
    let mut lists = Vec::with_capacity(alloc, count as usize)?;
    for _ in 0..count {
        lists.push(Vec::new(alloc))?;
    }
    Ok(lists)
}

impl Ends {
    /// No ends yet.
    fn none(
        alloc: Global,
        stations: u32,
        worker_count: u32,
        room: Option<u32>,
    ) -> Result<Ends, AllocError>
        ensures outlets { IfOk result (λ ends. ends.outlets ≡ replicate stations []) }
        ensures inlets { IfOk result (λ ends. ends.inlets ≡ replicate stations []) }
        ensures shelves { IfOk result (λ ends. ends.shelves ≡ replicate worker_count []) }
        ensures arcs { IfOk result (λ ends. ends.arcs ≡ replicate worker_count []) }
        ensures room { IfOk result (λ ends. ends.room ≡ room) }
    {
        Ok(Ends {
            outlets: empty_lists(alloc, stations)?,
            inlets: empty_lists(alloc, stations)?,
            shelves: empty_lists(alloc, worker_count)?,
            arcs: empty_lists(alloc, worker_count)?,
            room,
        })
    }

    /// Lays down the ends of an arc between two stations.
    fn lay(&mut self, from: u32, to: u32, outlet: Outlet, inlet: Inlet) -> Result<(), AllocError>
        requires from { from < length self.old.outlets }
        requires to { to < length self.old.inlets }
        ensures { OnOk result (self.new ≡ with_ends self.old from to outlet inlet) }
    {
        self.outlets[from as usize].push(outlet)?;
        self.inlets[to as usize].push(inlet)?;
        Ok(())
    }

    /// Lays the queue of arc `a`, which begins with these tokens, on a worker's shelf, and tells its number there.
    fn shelve(&mut self, worker_number: u32, a: u32, tokens: Vec<Date>) -> Result<u32, AllocError>
        requires worker_number { worker_number < length self.old.shelves }
        requires arcs { worker_number < length self.old.arcs }
        requires few { length (firsts_at self.old worker_number) < 2 ^ 32 }
        ensures number { IfOk result (λ q. q ≡ length (firsts_at self.old worker_number)) }
        ensures shelved { OnOk result (self.new ≡
            record self.old {
              shelves = with_one self.old.shelves worker_number tokens.items;
              arcs = with_one self.old.arcs worker_number a;
            }) }
    {
        let number = self.shelves[worker_number as usize].len() as u32;
        self.shelves[worker_number as usize].push(tokens)?;
        self.arcs[worker_number as usize].push(a)?;
        Ok(number)
    }

    /// Makes the queue of arc `a`, both of whose stations this worker has.
    fn join_within(
        &mut self,
        alloc: Global,
        start: &Start,
        a: u32,
        worker_number: u32,
    ) -> Result<(), AllocError>
        requires may_begin { MayBegin start.now }
        requires arc { a < arc_count start.now.live.now.graph }
        requires worker_number { worker_number < start.now.worker_count }
        requires puts { putter start.now.live.now.graph start.now.worker_count a ≡ worker_number }
        requires takes { taker start.now.live.now.graph start.now.worker_count a ≡ worker_number }
        requires laid { AreLaidFor start.now self.old a }
        ensures { OnOk result (HasLaid start.now a self.old self.new) }
    {
        let arc = start.live.graph().arc(a);
        let number = self.shelve(
            worker_number,
            a,
            tokens_on(alloc, start.live, start.state, a)?,
        )?;
        self.lay(
            arc.from,
            arc.to,
            Outlet::Local(number),
            Inlet::Local(number),
        )
    }

    /// Makes the ring of arc `a`, whose stations two workers have.
    fn join_between(&mut self, alloc: Global, start: &Start, a: u32) -> Result<(), AllocError>
        requires may_begin { MayBegin start.now }
        requires arc { a < arc_count start.now.live.now.graph }
        requires two { putter start.now.live.now.graph start.now.worker_count a ≢
            taker start.now.live.now.graph start.now.worker_count a }
        requires room { self.old.room ≡ start.now.room }
        requires laid { AreLaidFor start.now self.old a }
        ensures { OnOk result (HasLaid start.now a self.old self.new) }
    {
        let arc = start.live.graph().arc(a);
        let (outlet, inlet) = new_ring(alloc, start.live, start.state, a, start.room)?;
        self.lay(arc.from, arc.to, outlet, inlet)
    }

    /// Makes the queue of arc `a`, the next one.
    fn join(&mut self, alloc: Global, start: &Start, a: u32) -> Result<(), AllocError>
        requires may_begin { MayBegin start.now }
        requires arc { a < arc_count start.now.live.now.graph }
        requires room { self.old.room ≡ start.now.room }
        requires laid { AreLaidFor start.now self.old a }
        ensures { OnOk result (HasLaid start.now a self.old self.new) }
    {
        let graph = start.live.graph();
        let stations = graph.stations();
        let arc = graph.arc(a);
        let putter = worker_of(start.worker_count, stations, arc.from);
        let taker = worker_of(start.worker_count, stations, arc.to);
        if putter == taker {
            self.join_within(alloc, start, a, putter)
        } else {
            self.join_between(alloc, start, a)
        }
    }

    /// The ends of the queues of all arcs.
    pub(crate) fn of(alloc: Global, start: &Start) -> Result<Ends, AllocError>
        requires { MayBegin start.now }
        ensures laid { IfOk result
            (λ ends. AreLaidFor start.now ends (arc_count start.now.live.now.graph)) }
        ensures room { IfOk result (λ ends. ends.room ≡ start.now.room) }
        ensures sound { OnOk result (IsGraph start.now.live.now.graph) }
        ensures some_station { OnOk result (1 ≤ stations start.now.live.now.graph) }
        ensures few_arcs { OnOk result (arc_count start.now.live.now.graph < 2 ^ 32) }
    {
        let graph = start.live.graph();
        let mut ends = Ends::none(alloc, graph.stations(), start.worker_count, start.room)?;
        for a in 0..graph.arcs().len() as u32 {
            if let Err(error) = ends.join(alloc, start, a) {
                drop(ends);
                return Err(error);
            }
        }
        Ok(ends)
    }

    /// Takes the ends of station `t`. It takes no memory.
    pub(crate) fn take_station(&mut self, alloc: Global, t: u32) -> (Vec<Outlet>, Vec<Inlet>)
        requires outlets { t < length self.old.outlets }
        requires inlets { t < length self.old.inlets }
        ensures outlets { result.0.items ≡ outlets_at self.old t }
        ensures inlets { result.1.items ≡ inlets_at self.old t }
        ensures rest { self.new ≡ without self.old t }
    {
        let outlets = mem::replace(&mut self.outlets[t as usize], Vec::new(alloc));
        let inlets = mem::replace(&mut self.inlets[t as usize], Vec::new(alloc));
        (outlets, inlets)
    }

    /// Takes the tokens with which the queues of a worker's shelf begin, and the numbers of their arcs. It takes no
    /// memory.
    pub(crate) fn take_shelf(
        &mut self,
        alloc: Global,
        worker_number: u32,
    ) -> (Vec<Vec<Date>>, Vec<u32>)
        requires shelf { worker_number < length self.old.shelves }
        requires arcs { worker_number < length self.old.arcs }
        ensures tokens { map (λ tokens. tokens.items) result.0.items ≡ firsts_at self.old worker_number }
        ensures arcs { result.1.items ≡ arcs_at self.old worker_number }
        ensures rest { self.new ≡ record self.old {
          shelves = slice_set self.old.shelves worker_number [];
          arcs = slice_set self.old.arcs worker_number [];
        } }
    {
        let tokens = mem::replace(&mut self.shelves[worker_number as usize], Vec::new(alloc));
        let arcs = mem::replace(&mut self.arcs[worker_number as usize], Vec::new(alloc));
        (tokens, arcs)
    }
}
