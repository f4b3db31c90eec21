ghost use Rattle.std.specs.List.{range_with_len};
ghost use Rattle.std.specs.Prelude.{◌≡◌, ◌≢◌, ℕ, ◌<◌, ◌≤◌, ◌==◌, if◌then◌else◌, None, map, length, IsSome, IfOk};
ghost use Rattle.event_graph.specs.GreatestValue.{greatest};
ghost use Rattle.event_graph.specs.Network.{jobs, demand};
ghost use Rattle.station_step.specs.Input.{input_at, IsRefilled, TakeWithin, TakeApart, NoneTakes};
ghost use Rattle.station_step.specs.Noted.{inputs_of, extras_of, unnoted_input};
ghost use Rattle.station_step.specs.Refilled.{IfFull, IfEmpty, hand_asks};
ghost use Rattle.station_step.specs.Shelf.{queue_at, OnlyTakes};
ghost use Rattle.station_step.specs.Station.{bare_input};

use crate::ends::Inlet;
use crate::input::Input;
use crate::noted::NotedInput;
use crate::refilled::Refilled;
use crate::shelf::Shelf;
use event_graph::Graph;
use line_base::Date;
use std::alloc::{AllocError, Global};

/// An input with an empty hand for each inlet. No job time is noted yet.
pub(crate) fn with_empty_hands(
    alloc: Global,
    inlets: Vec<Inlet>,
) -> Result<Vec<NotedInput>, AllocError>
    ensures { IfOk result (λ inputs. inputs.items ≡ map unnoted_input inlets.items) }
{
    inlets
        .into_iter()
        .map(|inlet| NotedInput {
            input: Input { inlet, hand: None },
            extra: 0,
        })
        .collect(alloc)
}

/// Takes a token into each empty hand whose inlet gives one. Where all hands are full then, the answer is the greatest
/// date that their tokens ask for, each with what is noted beside its input; else it is the first and the last input
/// whose hand stays empty.
#[inline(always)]
pub(crate) fn refill(inputs: &mut Vec<NotedInput>, shelf: &mut Shelf) -> Refilled
    requires within { TakeWithin (length shelf.old.queues) (inputs_of inputs.old.items) }
    requires apart { TakeApart (inputs_of inputs.old.items) }
    ensures count { length (inputs_of inputs.new.items) ≡ length (inputs_of inputs.old.items) }
    ensures extras { extras_of inputs.new.items ≡ extras_of inputs.old.items }
    ensures same { map bare_input (inputs_of inputs.new.items) ≡
        map bare_input (inputs_of inputs.old.items) }
    ensures each { (k : ℕ) → k < length (inputs_of inputs.old.items) →
        IsRefilled shelf.old.queues shelf.new.queues (input_at (inputs_of inputs.old.items) k)
        (input_at (inputs_of inputs.new.items) k) }
    ensures only_takes { OnlyTakes shelf.old.queues shelf.new.queues }
    ensures others { (q : ℕ) → NoneTakes q (inputs_of inputs.old.items) →
        queue_at shelf.new.queues q ≡ queue_at shelf.old.queues q }
    ensures logs { shelf.new.logs ≡ shelf.old.logs }
    ensures sources { shelf.new.sources ≡ shelf.old.sources }
    ensures full { IfFull result (λ _. (k : ℕ) → k < length (inputs_of inputs.new.items) →
        IsSome (input_at (inputs_of inputs.new.items) k).hand) }
    ensures date { IfFull result (λ date. date ≡
        greatest (hand_asks (extras_of inputs.new.items) (inputs_of inputs.new.items))
        (range_with_len 0 (length (inputs_of inputs.new.items)))) }
    ensures there { IfEmpty result (λ first _. first < length (inputs_of inputs.new.items)) }
    ensures empty { IfEmpty result (λ first _.
        (input_at (inputs_of inputs.new.items) first).hand ≡ None) }
    ensures first { IfEmpty result (λ first _. (j : ℕ) → j < first →
        IsSome (input_at (inputs_of inputs.new.items) j).hand) }
    ensures last_there { IfEmpty result (λ _ last. last < length (inputs_of inputs.new.items)) }
    ensures last_empty { IfEmpty result (λ _ last.
        (input_at (inputs_of inputs.new.items) last).hand ≡ None) }
    ensures last { IfEmpty result (λ _ last. (j : ℕ) → last < j →
        j < length (inputs_of inputs.new.items) →
        IsSome (input_at (inputs_of inputs.new.items) j).hand) }
{
    let mut first = None;
    let (mut last, mut latest) = (0, 0);
    for (k, noted) in inputs.iter_mut().enumerate() {
        noted.input.refill(shelf);
        if noted.input.hand.is_none() {
            first = first.or(Some(k));
            last = k;
        }
        latest = latest.max(noted.input.hand.unwrap_or(0).saturating_add(noted.extra));
    }
    Refilled::of(first, last, latest)
}

/// Takes the tokens out of all hands.
#[inline(always)]
pub(crate) fn empty_hands(inputs: &mut Vec<NotedInput>)
    ensures count { length (inputs_of inputs.new.items) ≡ length (inputs_of inputs.old.items) }
    ensures extras { extras_of inputs.new.items ≡ extras_of inputs.old.items }
    ensures inlets { (k : ℕ) → (input_at (inputs_of inputs.new.items) k).inlet ≡
        (input_at (inputs_of inputs.old.items) k).inlet }
    ensures same { map bare_input (inputs_of inputs.new.items) ≡
        map bare_input (inputs_of inputs.old.items) }
    ensures hands { (k : ℕ) → k < length (inputs_of inputs.old.items) →
        (input_at (inputs_of inputs.new.items) k).hand ≡ None }
{
    for noted in inputs.iter_mut() {
        noted.input.hand = None;
    }
}

/// The date of a job: for the feed the demand date, else this one, the latest that the tokens ask for.
#[inline]
pub(crate) fn next_date(graph: &Graph, t: u32, job: u32, latest: Date) -> Date
    requires from_one { 1 ≤ job }
    requires job { job ≤ jobs graph.now }
    ensures { result ≡ (if t == 0 then demand graph.now job else latest) }
{
    if t == 0 { graph.demand(job) } else { latest }
}
