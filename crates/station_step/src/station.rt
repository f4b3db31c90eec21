ghost use Rattle.std.specs.Prelude.{◌≡◌, ℕ, ◌+◌, ◌-◌, ◌<◌, ◌≤◌, ◌^◌, ◌↔◌, List, [], All, false, length, slice_set, IfOk, IfSome, IfNone, IsTrue};
ghost use Rattle.card_queue.specs.Plain.{PlainQueue};
ghost use Rattle.event_graph.specs.Network.{stations, jobs, ins, outs};
ghost use Rattle.station_step.specs.Ends.{IsUntaken, IsUnfilled, HasRingRoom, unseen_inlet, unseen_outlet, AreEnds, AreMet, KnowsMore, HasMoreSpace};
ghost use Rattle.station_step.specs.Input.{input_at};
ghost use Rattle.station_step.specs.Kept.{IsKept, IsFresh};
ghost use Rattle.station_step.specs.RingInputs.{HaveLooked};
ghost use Rattle.station_step.specs.Station.{WorkStation, IsStation, IsSeated, StandsAt, MayPut, outlet_at, bare_station, new_station, with_inlet, with_outlet};
ghost use Rattle.station_step.specs.Step.{IsReady, IsDone, HasFired, IfBlocked, IsBlocked, IfFull, IsFull, Did, FiresAt, MovesApart};
ghost use Rattle.station_step.specs.Waits.{StaysBlocked};

use crate::ends::{Inlet, Outlet, meet_ends};
use crate::fronts::{Front, fronts_of, is_direct};
use crate::inputs::{empty_hands, next_date, refill, with_empty_hands};
use crate::noted::{
    NotedInput, NotedOutlet, kinds_of, note_job, note_time, with_delays, worked_into,
};
use crate::outlets::{look_all, put_all};
use crate::refilled::Refilled;
use crate::ring_inputs::{has_rings, look_rings, take_rings};
use crate::shelf::Shelf;
use crate::stepped::Stepped;
use crate::waits::{EmptyHand, only_empty};
use event_graph::Graph;
use line_base::{Date, Log};
use live_check::Live;
use std::alloc::{AllocError, Global};
use std::marker::Model;
use std::snapshot::Snapshot;

/// A station at work: the ends of its queues, and for each arc into it a hand, which holds the token that was taken for
/// the next firing. Its log of dates stands on the shelf of its worker.
///
/// A station keeps the number of dates that its log was made with. Each call that takes a `Live` takes the one that the
/// station was made for.
#[derive(Drop)]
pub struct Station {
    number: u32,
    made: u32,
    // Whether every job takes one time here. Where not, each step notes what its job adds, by whether the arc of each
    // input is worked.
    fixed: bool,
    // Whether an output can lack space, and whether one is over a ring; and whether an input is.
    bounded: bool,
    rings: bool,
    rings_in: bool,
    // Whether it fires at once where it can, and whether it may do so now, as all of its hands are empty.
    direct: bool,
    at_once: bool,
    turns: u64,
    // A step that fires at once reads what stands up to here, and of what follows the ends of its rings alone.
    fronts: Vec<Front>,
    // Beside each input stands what the time of the job adds to its token, and beside each outlet the delay of its arc.
    inputs: Vec<NotedInput>,
    outlets: Vec<NotedOutlet>,
    // The one hand that stayed empty at its last step, where all others were full then.
    waits_for: Option<EmptyHand>,
    worked: Vec<bool>,
    // Its log, as it stands on the worker's shelf, and the graph that the station was made for. Contracts alone read
    // them.
    log: Snapshot<Log>,
    graph: Snapshot<Graph>,
}

impl Model for Station {
    ghost use Rattle.station_step.specs.Fronts.{IsReadied};
    ghost use Rattle.station_step.specs.Noted.{IsNoted, inputs_of, seen_station};
    ghost use Rattle.station_step.specs.Station.{WorkStation, IsStation};
    ghost use Rattle.station_step.specs.Waits.{IsWaiting};

    ghost Value = { WorkStation };

    ghost view = { λ s. seen_station s.graph.value s.number s.inputs.items s.outlets.items s.log.value s.made s.turns };

    ghost invariant = { λ s. record {
      station : IsStation (seen_station s.graph.value s.number s.inputs.items s.outlets.items s.log.value
          s.made s.turns);
      noted : IsNoted s.graph.value s.number s.inputs.items s.outlets.items s.fixed s.worked.items
          s.bounded s.rings;
      readied : IsReadied s.graph.value s.number (inputs_of s.inputs.items) s.fronts.items s.fixed
          s.bounded s.rings_in s.direct s.at_once;
      waiting : IsWaiting s.graph.value s.number (inputs_of s.inputs.items) s.log.value s.at_once
          s.waits_for;
    } };
}

impl Station {
    /// The station `t` with these ends of its queues, in the order of the arcs into it and out of it, and the log that
    /// it goes on with. Fails only where memory runs out.
    pub fn new(
        alloc: Global,
        live: &Live,
        t: u32,
        inlets: Vec<Inlet>,
        outlets: Vec<Outlet>,
        log: &Log,
    ) -> Result<Station, AllocError>
        requires exists { t < stations live.now.graph }
        requires an_inlet_each { length inlets.items ≡ length (ins live.now.graph t) }
        requires an_outlet_each { length outlets.items ≡ length (outs live.now.graph t) }
        requires few_dates { length log.now.dates ≤ jobs live.now.graph }
        requires log_room { jobs live.now.graph ≤ log.now.room }
        requires untaken { All IsUntaken inlets.items }
        requires unfilled { All IsUnfilled outlets.items }
        requires ring_room { (k : ℕ) → k < length outlets.items →
            HasRingRoom (jobs live.now.graph - length log.now.dates) (outlet_at outlets.items k) }
        ensures made { IfOk result (λ s. s ≡
            new_station live.now.graph t inlets.items outlets.items log.now) }
        ensures station { IfOk result IsStation }
        ensures kept { IfOk result (λ s. (shelf : List PlainQueue) → IsFresh shelf s →
            IsKept shelf s) }
    {
        let graph = live.graph();
        let made = log.dates().len() as u32;
        let (bounded, rings) = kinds_of(outlets.as_slice());
        let worked = worked_into(alloc, graph, t)?;
        let mut inputs = with_empty_hands(alloc, inlets)?;
        note_time(&mut inputs, worked.as_slice(), graph.time(t, 1));
        let fixed = !graph.varies(t);
        let fronts = fronts_of(alloc, graph, t, &inputs)?;
        let rings_in = has_rings(inputs.as_slice());
        let direct = is_direct(t, fixed, bounded);
        let outlets = with_delays(alloc, graph, t, outlets)?;
        Ok(Station {
            number: t,
            fixed,
            bounded,
            rings,
            rings_in,
            direct,
            at_once: direct,
            waits_for: None,
            turns: 0,
            fronts,
            inputs,
            outlets,
            worked,
            made,
            log: Snapshot::of(log),
            graph: Snapshot::of(graph),
        })
    }

    /// Makes one step. Where the log has a date for each job it answers `Done` and takes nothing. Else it takes a token
    /// into each empty hand whose queue gives one. Where a hand stays empty, the answer is `Blocked`, with the first
    /// arc that has no token, and the tokens taken stay in the hands. Else it looks at each output that knows of no
    /// space, as only one over a ring of bounded room may. Where one has none after that, the answer is `Full`, with
    /// the first such arc; nothing is put, and the hands keep their tokens. Else the station fires: the new date is the
    /// greatest of the tokens, each with the job time where its arc is worked, and for the feed the demand date. It
    /// goes to the end of the log and, later by the arc's delay, on every output; the hands are empty then. Sums
    /// saturate.
    ///
    /// The station is number `i` of its worker, on whose shelf its log stands.
    ///
    /// It takes no memory, and goes over its inputs at most five times and over its outputs at most twice. Where one hand
    /// alone stayed empty at the last step and no token has come there, it looks at that input alone.
    ///
    /// Source of the rule: Baccelli, Cohen, Olsder and Quadrat, Synchronization and Linearity, on event graphs.
    #[inline(always)]
    pub fn step(&mut self, live: &Live, shelf: &mut Shelf, i: u32) -> Stepped
        requires made_for { live.now.graph ≡ self.old.graph }
        requires turns { self.old.turns < 2 ^ 40 }
        requires seated { IsSeated shelf.old.queues self.old }
        requires may_put { MayPut shelf.old.queues self.old }
        requires stands { StandsAt i shelf.old self.old }
        ensures turns { self.new.turns ≡ self.old.turns + 1 }
        ensures same { bare_station self.new ≡ bare_station self.old }
        ensures station { IsStation self.new }
        ensures seated { IsSeated shelf.new.queues self.new }
        ensures stands { StandsAt i shelf.new self.new }
        ensures done { IsDone result ↔ (length self.old.log.dates ≡ jobs self.old.graph) }
        ensures blocked { IfBlocked result (IsBlocked shelf.old.queues self.old self.new) }
        ensures full { IfFull result (IsFull self.old self.new) }
        ensures fires { IsReady shelf.old.queues self.old → HasFired result }
        ensures did { Did result shelf.old.queues shelf.new.queues self.old self.new }
        ensures kept { IsKept shelf.old.queues self.old → IsKept shelf.new.queues self.new }
        ensures moves { MovesApart self.old shelf.old.queues shelf.new.queues }
        ensures logs { shelf.new.logs ≡ slice_set shelf.old.logs i self.new.log }
        ensures sources { shelf.new.sources ≡ shelf.old.sources }
    {
        if self.fire_at_once(live, shelf, i) {
            return Stepped::Fired;
        }
        if let Some(arc) = self.stay_blocked(shelf) {
            return Stepped::Blocked(arc);
        }
        self.step_by_hands(live, shelf, i)
    }

    /// Fires at once, where the station may, a token waits at each of its fronts, and one is known at each input over a
    /// ring. Else it has looked at these rings at most.
    #[inline(always)]
    fn fire_at_once(&mut self, live: &Live, shelf: &mut Shelf, i: u32) -> bool
        requires made_for { live.now.graph ≡ self.old.graph }
        requires turns { self.old.turns < 2 ^ 40 }
        requires seated { IsSeated shelf.old.queues self.old }
        requires may_put { MayPut shelf.old.queues self.old }
        requires stands { StandsAt i shelf.old self.old }
        ensures fired { IsTrue result → FiresAt i shelf.old shelf.new self.old self.new }
        ensures shelf { result ≡ false → shelf.new ≡ shelf.old }
        ensures looked { result ≡ false → HaveLooked self.old self.new }
        ensures stays { length self.old.log.dates ≡ jobs self.old.graph → self.new ≡ self.old }
    {
        if !self.at_once {
            return false;
        }
        let graph = live.graph();
        let done = shelf.log(i).dates().len() as u32;
        if done == graph.jobs() {
            return false;
        }
        if !look_rings(self.rings_in, &mut self.inputs) {
            return false;
        }
        let Some(latest) = shelf.take_fronts(self.fronts.as_slice()) else {
            return false;
        };
        let date = take_rings(self.rings_in, &mut self.inputs, latest);
        put_all(self.rings, &mut self.outlets, shelf, i, date);
        self.turns += 1;
        self.log = Snapshot::of(shelf.log(i));
        true
    }

    /// Looks for a token at the one input whose hand is empty, where all others are full. Where none is there, that is
    /// a step, and the answer is the arc. Else it has looked there at most.
    #[inline(always)]
    fn stay_blocked(&mut self, shelf: &Shelf) -> Option<u32>
        requires turns { self.old.turns < 2 ^ 40 }
        requires seated { IsSeated shelf.now.queues self.old }
        ensures blocked { IfSome result (StaysBlocked shelf.now.queues self.old self.new) }
        ensures looked { IfNone result (HaveLooked self.old self.new) }
        ensures stays { length self.old.log.dates ≡ jobs self.old.graph → self.new ≡ self.old }
    {
        let Some(hand) = self.waits_for else {
            return None;
        };
        if self.inputs[hand.input].input.inlet.has_token(shelf) {
            return None;
        }
        self.turns += 1;
        Some(hand.arc)
    }

    /// Makes one step as `step` does, with the tokens in the hands.
    #[inline]
    fn step_by_hands(&mut self, live: &Live, shelf: &mut Shelf, i: u32) -> Stepped
        requires made_for { live.now.graph ≡ self.old.graph }
        requires turns { self.old.turns < 2 ^ 40 }
        requires seated { IsSeated shelf.old.queues self.old }
        requires may_put { MayPut shelf.old.queues self.old }
        requires stands { StandsAt i shelf.old self.old }
        ensures turns { self.new.turns ≡ self.old.turns + 1 }
        ensures same { bare_station self.new ≡ bare_station self.old }
        ensures station { IsStation self.new }
        ensures seated { IsSeated shelf.new.queues self.new }
        ensures stands { StandsAt i shelf.new self.new }
        ensures done { IsDone result ↔ (length self.old.log.dates ≡ jobs self.old.graph) }
        ensures blocked { IfBlocked result (IsBlocked shelf.old.queues self.old self.new) }
        ensures full { IfFull result (IsFull self.old self.new) }
        ensures fires { IsReady shelf.old.queues self.old → HasFired result }
        ensures did { Did result shelf.old.queues shelf.new.queues self.old self.new }
        ensures kept { IsKept shelf.old.queues self.old → IsKept shelf.new.queues self.new }
        ensures moves { MovesApart self.old shelf.old.queues shelf.new.queues }
        ensures logs { shelf.new.logs ≡ slice_set shelf.old.logs i self.new.log }
        ensures sources { shelf.new.sources ≡ shelf.old.sources }
    {
        self.turns += 1;
        let graph = live.graph();
        let done = shelf.log(i).dates().len() as u32;
        if done == graph.jobs() {
            return Stepped::Done;
        }
        let job = done + 1;
        self.at_once = false;
        let worked = self.worked.as_slice();
        note_job(
            self.fixed,
            &mut self.inputs,
            worked,
            graph,
            self.number,
            job,
        );
        let latest = match refill(&mut self.inputs, shelf) {
            Refilled::Full(latest) => latest,
            Refilled::Empty(first, last) => {
                let arc = graph.ins(self.number)[first];
                self.waits_for = only_empty(first, last, arc);
                return Stepped::Blocked(arc);
            }
        };
        self.waits_for = None;
        if let Some(k) = look_all(self.bounded, &mut self.outlets) {
            return Stepped::Full(graph.outs(self.number)[k]);
        }
        empty_hands(&mut self.inputs);
        self.at_once = self.direct;
        let date = next_date(graph, self.number, job, latest);
        put_all(self.rings, &mut self.outlets, shelf, i, date);
        self.log = Snapshot::of(shelf.log(i));
        Stepped::Fired
    }

    /// How many steps the station made since it was made, or since its turns were last cleared.
    pub fn turns(&self) -> u64
        ensures turns { result ≡ self.now.turns }
        ensures station { IsStation self.now }
    {
        self.turns
    }

    /// The token in the hand of input `k`. `None` comes exactly where that hand is empty.
    pub fn hand(&self, k: u32) -> Option<Date>
        requires { k < length self.now.inputs }
        ensures hand { result ≡ (input_at self.now.inputs k).hand }
        ensures station { IsStation self.now }
    {
        self.inputs[k as usize].input.hand
    }

    /// Counts the turns from 0 again. Nothing else changes.
    pub fn clear_turns(&mut self)
        ensures turns { self.new ≡ record self.old { turns = 0 } }
        ensures station { IsStation self.new }
    {
        self.turns = 0;
    }
}

/// Brings the two ends of one ring together on one thread: output `k` of a station and input `j` of another. All that
/// was put and not taken is then known, and where the room is bounded, the space is at least the room less what was put
/// and not taken. Nothing else of the stations changes. It takes no memory.
pub fn meet_at(from: &mut Station, k: u32, to: &mut Station, j: u32)
    requires output { k < length from.old.outlets }
    requires input { j < length to.old.inputs }
    requires ends { AreEnds (outlet_at from.old.outlets k) (input_at to.old.inputs j).inlet }
    ensures from { from.new ≡ with_outlet from.old k (outlet_at from.new.outlets k) }
    ensures to { to.new ≡ with_inlet to.old j (input_at to.new.inputs j).inlet }
    ensures outlet { unseen_outlet (outlet_at from.new.outlets k) ≡
        unseen_outlet (outlet_at from.old.outlets k) }
    ensures inlet { unseen_inlet (input_at to.new.inputs j).inlet ≡
        unseen_inlet (input_at to.old.inputs j).inlet }
    ensures space { HasMoreSpace (outlet_at from.old.outlets k) (outlet_at from.new.outlets k) }
    ensures known { KnowsMore (input_at to.old.inputs j).inlet (input_at to.new.inputs j).inlet }
    ensures met { AreMet (outlet_at from.new.outlets k) (input_at to.new.inputs j).inlet }
    ensures from_bare { bare_station from.new ≡ bare_station from.old }
    ensures to_bare { bare_station to.new ≡ bare_station to.old }
    ensures from_station { IsStation from.new }
    ensures to_station { IsStation to.new }
    ensures from_kept { (shelf : List PlainQueue) → IsKept shelf from.old → IsKept shelf from.new }
    ensures to_kept { (shelf : List PlainQueue) → IsKept shelf to.old → IsKept shelf to.new }
{
    meet_ends(
        &mut from.outlets[k as usize].outlet,
        &mut to.inputs[j as usize].input.inlet,
    );
}
