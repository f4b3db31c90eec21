ghost use Rattle.std.specs.Prelude.{◌≡◌, ◌≢◌, ℕ, ◌<◌, ◌↔◌, false, length, IsTrue, IfOk};
ghost use Rattle.event_graph.specs.Network.{stations, ins};
ghost use Rattle.station_step.specs.Counts.{tally_at, sources_of, origins_of, seen_queues, AreTallies, one_returned};
ghost use Rattle.station_step.specs.Fronts.{front_at, FrontsWithin, FrontsApart, NoneAt, TakesEach, AreFronts, AreLaterBy};
ghost use Rattle.station_step.specs.Noted.{inputs_of, extras_of, delays_into};

use crate::noted::NotedInput;
use crate::tally::Tally;
use event_graph::Graph;
use line_base::{Date, Log};
use std::alloc::{AllocError, Global};
use std::snapshot::Snapshot;

/// The front of an input on the worker's shelf: the queue from which it takes, and by how much later than the date of
/// its source the job is there: the delay of its arc, with what the time of the job adds. A step that fires at once
/// reads this alone of the input.
#[derive(Drop)]
pub(crate) struct Front {
    pub(crate) queue: u32,
    pub(crate) later: u64,
    // What the time of the job adds. Contracts alone read it.
    pub(crate) extra: Snapshot<u64>,
}

/// The fronts of these inputs of station `t`: one for each that is on the shelf, in their order, with what is noted
/// beside it.
pub(crate) fn fronts_of(
    alloc: Global,
    graph: &Graph,
    t: u32,
    inputs: &Vec<NotedInput>,
) -> Result<Vec<Front>, AllocError>
    requires station { t < stations graph.now }
    requires an_input_each { length inputs.now.items ≡ length (ins graph.now t) }
    ensures { IfOk result (λ fronts. AreFronts (delays_into graph.now t) (extras_of inputs.now.items)
        (inputs_of inputs.now.items) fronts.items) }
{
    let ins = graph.ins(t);
    let mut fronts = Vec::with_capacity(alloc, inputs.len())?;
    for (k, noted) in inputs.iter().enumerate() {
        if let Some(queue) = noted.input.inlet.queue() {
            let delay = graph.delay(ins[k]);
            fronts.push(Front {
                queue,
                later: delay.saturating_add(noted.extra),
                extra: Snapshot::of(&noted.extra),
            })?;
        }
    }
    Ok(fronts)
}

/// Whether a station fires at once where it can: where it is not the feed, each job takes as long there, and no outlet
/// can lack space.
pub(crate) fn is_direct(t: u32, fixed: bool, bounded: bool) -> bool
    ensures { IsTrue result ↔ (t ≢ 0) × (IsTrue fixed × (bounded ≡ false)) }
{
    t != 0 && fixed && !bounded
}

/// Takes the first token at each of these fronts, where one waits at each of them and is a date of its source, and tells
/// the latest date that they ask for. Else nothing is taken: tokens with which a queue began are taken by hands.
///
/// The lists of the shelf come as slices, so that the loop loads once where each of them begins. `room` and `firsts` are
/// read by contracts alone.
#[inline(always)]
pub(crate) fn take_each(
    fronts: &[Front],
    room: &Snapshot<u32>,
    firsts: &[Date],
    logs: &[Log],
    tallies: &mut [Tally],
) -> Option<Date>
    requires sound { AreTallies firsts.now room.now.value logs.now tallies.old }
    requires within { FrontsWithin (length tallies.old) fronts.now }
    requires apart { FrontsApart fronts.now }
    requires later { AreLaterBy (sources_of tallies.old) fronts.now }
    ensures origins { origins_of tallies.new ≡ origins_of tallies.old }
    ensures sound { AreTallies firsts.now room.now.value logs.now tallies.new }
    ensures sources { sources_of tallies.new ≡ sources_of tallies.old }
    ensures takes { TakesEach fronts.now (seen_queues firsts.now room.now.value logs.now tallies.old)
        (seen_queues firsts.now room.now.value logs.now tallies.new) result }
{
    let mut latest = 0;
    for (k, front) in fronts.iter().enumerate() {
        let tally = &mut tallies[front.queue as usize];
        let Some(date) = tally.take_date(logs) else {
            give_back(&fronts[..k], tallies);
            return None;
        };
        latest = latest.max(date.saturating_add(front.later));
    }
    Some(latest)
}

/// Puts the date back at each of these fronts that was taken there last.
fn give_back(fronts: &[Front], tallies: &mut [Tally])
    requires within { FrontsWithin (length tallies.old) fronts.now }
    requires apart { FrontsApart fronts.now }
    requires taken { (k : ℕ) → k < length fronts.now →
        (tally_at tallies.old (front_at fronts.now k).queue).initial
        < (tally_at tallies.old (front_at fronts.now k).queue).taken }
    ensures count { length tallies.new ≡ length tallies.old }
    ensures each { (k : ℕ) → k < length fronts.now →
        tally_at tallies.new (front_at fronts.now k).queue ≡
        one_returned (tally_at tallies.old (front_at fronts.now k).queue) }
    ensures others { (q : ℕ) → NoneAt q fronts.now → tally_at tallies.new q ≡ tally_at tallies.old q }
{
    for front in fronts {
        tallies[front.queue as usize].give_back();
    }
}
