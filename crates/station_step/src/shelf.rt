ghost use Rattle.std.specs.List.{range_with_len};
ghost use Rattle.std.specs.Prelude.{◌≡◌, ◌≢◌, ℕ, ◌<◌, ◌≤◌, ◌+◌, ◌^◌, ◌++◌, ◌∷◌, [], ◌↔◌, All, map, take, length, slice_set, IfOk, IfSome, IfNone, IsNone, option_to_list};
ghost use Rattle.card_queue.specs.Plain.{plain_taken, plain_waiting};
ghost use Rattle.event_graph.specs.GreatestValue.{greatest};
ghost use Rattle.line_base.specs.Roomy.{with_date};
ghost use Rattle.station_step.specs.Fronts.{front_at, front_asks, FrontsWithin, FrontsApart, NoneAt, AreAllThere, AreDates, AreLaterBy};
ghost use Rattle.station_step.specs.Shelf.{log_on, source_at, later_by, queue_at, new_queue, without_takes, with_take, OnlyTakes};

use crate::fronts::{Front, take_each};
use crate::source::Source;
use crate::tally::{Origin, Tally};
use line_base::{Date, Log};
use std::alloc::{AllocError, Global};
use std::marker::Model;
use std::snapshot::Snapshot;

/// The logs of one worker's stations, and the queues between these stations, numbered from 0. Contracts see the lists
/// of both.
///
/// A token that is put on a queue is a date of the station from which it comes, with a delay. So a queue keeps none of
/// them: it counts what was taken, and looks into that station's log.
#[derive(Drop)]
pub struct Shelf {
    logs: Vec<Log>,
    // The tokens that the queues began with, queue after queue.
    firsts: Vec<Date>,
    queues: Vec<Tally>,
    // Of each queue where its tokens come from. A step that fires at once reads none of these.
    origins: Vec<Origin>,
    // How many tokens may be put on each queue. Contracts alone read it.
    room: Snapshot<u32>,
}

impl Model for Shelf {
    ghost use Rattle.station_step.specs.Counts.{seen_shelf, IsShelf};
    ghost use Rattle.station_step.specs.Shelf.{WorkShelf};

    ghost Value = { WorkShelf };

    ghost view = { λ s. seen_shelf s.firsts.items s.room.value s.logs.items s.queues.items };

    ghost invariant = { λ s. IsShelf s.firsts.items s.room.value s.logs.items s.queues.items s.origins.items };
}

impl Shelf {
    /// The shelf with these logs, and with a queue for each of these lists of tokens, which it begins with, and for
    /// each of these sources, from which its further tokens come. `room` may come on each. Fails only where memory runs
    /// out.
    pub fn new(
        alloc: Global,
        logs: Vec<Log>,
        firsts: Vec<Vec<Date>>,
        sources: Vec<Source>,
        room: u32,
    ) -> Result<Shelf, AllocError>
        requires a_source_each { length sources.items ≡ length firsts.items }
        requires logs_there { All (λ (source : Source). source.station < length logs.items) sources.items }
        requires few_dates { All (λ log. length log.dates ≤ room) logs.items }
        requires small { All (λ tokens. length tokens.items + room < 2 ^ 32) firsts.items }
        ensures logs { IfOk result (λ shelf. shelf.logs ≡ logs.items) }
        ensures sources { IfOk result (λ shelf. shelf.sources ≡ sources.items) }
        ensures queues { IfOk result (λ shelf. shelf.queues ≡
            map (λ tokens. new_queue room tokens.items) firsts.items) }
    {
        let mut tokens = Vec::new(alloc);
        let mut queues = Vec::with_capacity(alloc, firsts.len())?;
        let mut origins = Vec::with_capacity(alloc, firsts.len())?;
        for first in &firsts {
            let source = sources[queues.len()];
            let origin = Origin {
                delay: source.delay,
                made: logs[source.station as usize].dates().len() as u32,
                end: tokens.len() + first.len(),
            };
            queues.push(Tally::new(&origin, source.station, first.len() as u32))?;
            origins.push(origin)?;
            tokens.extend_from_slice(first)?;
        }
        Ok(Shelf {
            logs,
            firsts: tokens,
            queues,
            origins,
            room: Snapshot::of(&room),
        })
    }

    /// The log of station `i` of the worker.
    #[inline]
    pub fn log(&self, i: u32) -> &Log
        requires { i < length self.now.logs }
        ensures { result.now ≡ log_on self.now.logs i }
    {
        &self.logs[i as usize]
    }

    /// The logs of the worker's stations.
    pub fn logs(&self) -> &Vec<Log>
        ensures { result.now.items ≡ self.now.logs }
    {
        &self.logs
    }

    /// Gives up the logs of the worker's stations. It takes no memory.
    pub fn into_logs(self) -> Vec<Log>
        ensures { result.items ≡ self.logs }
    {
        self.logs
    }

    /// How many tokens of queue `k` wait to be taken.
    #[inline]
    pub fn waiting(&self, k: u32) -> u32
        requires { k < length self.now.queues }
        ensures { result ≡ length (plain_waiting (queue_at self.now.queues k)) }
    {
        let origin = &self.origins[k as usize];
        self.queues[k as usize].waiting(origin, self.logs.as_slice()) as u32
    }

    /// Takes the front token of queue `k`, if there is one.
    #[inline]
    pub fn take(&mut self, k: u32) -> Option<Date>
        requires { k < length self.old.queues }
        ensures front { option_to_list result ≡ take 1 (plain_waiting (queue_at self.old.queues k)) }
        ensures counted { IfSome result (λ _. self.new.queues ≡
            slice_set self.old.queues k (with_take (queue_at self.old.queues k))) }
        ensures stays { IfNone result (self.new.queues ≡ self.old.queues) }
        ensures only { self.new.queues ≡ slice_set self.old.queues k (queue_at self.new.queues k) }
        ensures taken { plain_taken (queue_at self.new.queues k) ≡ plain_taken (queue_at self.old.queues k) ++
            option_to_list result }
        ensures none { IsNone result ↔ (plain_waiting (queue_at self.old.queues k) ≡ []) }
        ensures puts { without_takes (queue_at self.new.queues k) ≡ without_takes (queue_at self.old.queues k) }
        ensures logs { self.new.logs ≡ self.old.logs }
        ensures sources { self.new.sources ≡ self.old.sources }
    {
        let origin = &self.origins[k as usize];
        let tally = &mut self.queues[k as usize];
        tally.take(origin, self.firsts.as_slice(), self.logs.as_slice())
    }

    /// Takes the first token at each of these fronts, where one waits at each of them and is a date of its source, and
    /// tells the latest date that they ask for. Else nothing is taken.
    #[inline(always)]
    pub(crate) fn take_fronts(&mut self, fronts: &[Front]) -> Option<Date>
        requires within { FrontsWithin (length self.old.queues) fronts.now }
        requires apart { FrontsApart fronts.now }
        requires later { AreLaterBy self.old.sources fronts.now }
        ensures there { IfSome result (λ _. AreAllThere self.old.queues fronts.now) }
        ensures dates { IfSome result (λ _. AreDates self.old.queues fronts.now) }
        ensures date { IfSome result (λ latest. latest ≡
            greatest (front_asks self.old.queues fronts.now) (range_with_len 0 (length fronts.now))) }
        ensures each { IfSome result (λ _. (k : ℕ) → k < length fronts.now →
            queue_at self.new.queues (front_at fronts.now k).queue ≡
            with_take (queue_at self.old.queues (front_at fronts.now k).queue)) }
        ensures lacks { IfNone result (AreAllThere self.old.queues fronts.now
            → AreDates self.old.queues fronts.now → ⊥) }
        ensures stays { IfNone result (self.new.queues ≡ self.old.queues) }
        ensures only_takes { OnlyTakes self.old.queues self.new.queues }
        ensures others { (q : ℕ) → NoneAt q fronts.now →
            queue_at self.new.queues q ≡ queue_at self.old.queues q }
        ensures logs { self.new.logs ≡ self.old.logs }
        ensures sources { self.new.sources ≡ self.old.sources }
    {
        take_each(
            fronts,
            &self.room,
            self.firsts.as_slice(),
            self.logs.as_slice(),
            self.queues.as_mut_slice(),
        )
    }

    /// Adds a date to the log of station `i`, and with that a token to each queue that comes from there. It takes no
    /// memory.
    #[inline]
    pub fn add(&mut self, i: u32, date: Date)
        requires there { i < length self.old.logs }
        requires log_room { length (log_on self.old.logs i).dates < (log_on self.old.logs i).room }
        requires room { (q : ℕ) → q < length self.old.queues →
            (source_at self.old.sources q).station ≡ i →
            length (queue_at self.old.queues q).added < (queue_at self.old.queues q).room }
        ensures logs { self.new.logs ≡
            slice_set self.old.logs i (with_date (log_on self.old.logs i) date) }
        ensures sources { self.new.sources ≡ self.old.sources }
        ensures count { length self.new.queues ≡ length self.old.queues }
        ensures added { (q : ℕ) → q < length self.old.queues →
            (source_at self.old.sources q).station ≡ i →
            queue_at self.new.queues q ≡ record (queue_at self.old.queues q) {
              added = (queue_at self.old.queues q).added ++
                  later_by (source_at self.old.sources q).delay date ∷ [];
            } }
        ensures others { (q : ℕ) → (q < length self.old.queues →
            (source_at self.old.sources q).station ≢ i) →
            queue_at self.new.queues q ≡ queue_at self.old.queues q }
        ensures taken { (q : ℕ) →
            plain_taken (queue_at self.new.queues q) ≡ plain_taken (queue_at self.old.queues q) }
    {
        self.logs[i as usize].add(date);
    }
}
