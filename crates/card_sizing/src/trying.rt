//! A try: whether the line of one plant is in time, and why it isn't.
ghost use Rattle.std.specs.Prelude.{◌≡◌, ◌+◌, ◌≤◌, ◌<◌, true, IfOk, MatchOption};
ghost use Rattle.card_sizing.specs.Serving.{NoneIsLateIn, IsFirstLateIn};
ghost use Rattle.card_sizing.specs.Sized.{has_single_count, sized_plant, lowest};
ghost use Rattle.card_sizing.specs.Trying.{Tells, ShowsItsCircuit, NamesItsCircuit};
ghost use Rattle.line_base.specs.Limits.{most_cards};
ghost use Rattle.plant_model.specs.Sound.{IsSound};

use crate::late_job::LateJob;
use crate::sized::sized_plant;
use crate::sizing::Below;
use crate::waits::first_late;
use line_base::{Items, Label};
use line_core::State;
use line_graph::{dead_labels, graph_of};
use live_check::{Live, NotLive, rank};
use plant_model::Plant;
use std::alloc::{AllocError, Global};

/// Why a plant's line isn't in time, where no job may wait longer than `may`; `None` where it is. It takes the time of
/// a run, up to the first job that waits longer.
pub fn try_plant(alloc: Global, plant: &Plant, may: u64) -> Result<Option<Below>, AllocError>
    requires { IsSound plant.now }
    ensures { IfOk result (Tells plant.now may) }
{
    match rank(alloc, graph_of(alloc, plant)?) {
        Ok(live) => match late_of(alloc, live, may)? {
            Some(LateJob { job, wait }) => Ok(Some(Below::Job { job, wait })),
            None => Ok(None),
        },
        Err(not_live) => {
            let labels = labels_of(alloc, not_live)?;
            Ok(Some(Below::Dead { labels }))
        }
    }
}

/// Why a count of cards doesn't serve, where no job may wait longer than `may`; `None` where it serves. It counts as a
/// try.
pub fn try_count(
    alloc: Global,
    plant: &Plant,
    may: u64,
    count: u32,
    tries: &mut u32,
) -> Result<Option<Below>, AllocError>
    requires sound { IsSound plant.now }
    requires single { has_single_count plant.now ≡ true }
    requires enough { lowest plant.now ≤ count }
    requires few { count ≤ most_cards }
    requires few_tries { tries.old < 1_000 }
    ensures tells { IfOk result (Tells (sized_plant plant.now count) may) }
    ensures counted { tries.new ≡ tries.old + 1 }
{
    *tries += 1;
    let sized = sized_plant(alloc, plant, count)?;
    let known = try_plant(alloc, &sized, may);
    drop(sized);
    known
}

/// The first job of a live line that waits longer than `may`.
fn late_of(alloc: Global, live: Live, may: u64) -> Result<Option<LateJob>, AllocError>
    ensures { IfOk result (λ found. MatchOption found
        (NoneIsLateIn live.graph may)
        (λ late. IsFirstLateIn live.graph may late.job late.wait)) }
{
    let late = late_in(alloc, &live, may);
    drop(live);
    late
}

/// The first job of a live line, which is kept, that waits longer than `may`.
fn late_in(alloc: Global, live: &Live, may: u64) -> Result<Option<LateJob>, AllocError>
    ensures { IfOk result (λ found. MatchOption found
        (NoneIsLateIn live.now.graph may)
        (λ late. IsFirstLateIn live.now.graph may late.job late.wait)) }
{
    let mut state = State::start(alloc, live)?;
    Ok(first_late(&mut state, live, may))
}

/// The labels along the circuit without a token of a graph that isn't live.
fn labels_of(alloc: Global, not_live: NotLive) -> Result<Items<Label>, AllocError>
    requires { ShowsItsCircuit not_live }
    ensures { IfOk result (NamesItsCircuit not_live) }
{
    match not_live {
        NotLive::Dead { graph, arcs } => {
            let labels = dead_labels(alloc, &graph, arcs.as_slice());
            drop(graph);
            labels
        }
        NotLive::NoMemory { graph } => {
            drop(graph);
            Err(AllocError)
        }
    }
}
