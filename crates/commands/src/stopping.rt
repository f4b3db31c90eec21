//! The run of a live plant that is asked to stop: its report, or the save of the state in which it stops.
ghost use Rattle.std.specs.Prelude.{◌≡◌, IfOk, IsErrOf};
ghost use Rattle.command_line.specs.Ranges.{AreWorkers};
ghost use Rattle.commands.specs.EndsAsAsked.{EndsAsAsked};
ghost use Rattle.commands.specs.Saving.{AnswersWrite, RunsUntil, SavesText};
ghost use Rattle.line_core.specs.Consistent.{firing_count};
ghost use Rattle.line_runs.specs.Store.{text_of};
ghost use Rattle.live_plant.specs.Actions.{DoesOnStore};
ghost use Rattle.live_plant.specs.LivePlant.{IsLivePlant};
ghost use Rattle.live_plant.specs.Outside.{store_over};

use crate::reports::report_of;
use answers::Answer;
use command_line::Stop;
use line_core::State;
use line_runs::{Outcome, save_state};
use line_workers::{Gate, Line};
use live_check::Live;
use live_plant::{FileName, LivePlant, Refusal};
use outside_io::{Store, StoreError};
use std::alloc::{AllocError, Global};
use std::thread::Threads;

/// Runs a live plant by this many workers until this many firings are made, and saves the state in
/// which it stops, at the first burst's end with as many; or to its end, where all firings are made
/// before such a burst's end.
pub fn run_until<R: Threads + Sync, G: Gate, S: Store>(
    rt: &R,
    alloc: Global,
    line: LivePlant,
    workers: u32,
    stop: Stop,
    gate: &G,
    store: &mut S,
) -> Result<Answer, Refusal>
    requires plant { IsLivePlant line }
    requires workers { AreWorkers workers }
    ensures { DoesOnStore (store_over S.tells (S.shown store.old) (S.shown store.new))
        (RunsUntil line.plant workers stop.after stop.save) result }
{
    match outcome_of(rt, alloc, &line.live, workers, stop.after, gate) {
        Ok(outcome) => end_run(alloc, line, outcome, workers, stop, store),
        Err(_) => {
            drop(line);
            Err(Refusal::NoMemory)
        }
    }
}

/// How a run of a live graph ends that is asked to stop after this many firings, by this many workers.
fn outcome_of<R: Threads + Sync, G: Gate>(
    rt: &R,
    alloc: Global,
    live: &Live,
    workers: u32,
    firings: u64,
    gate: &G,
) -> Result<Outcome, AllocError>
    requires workers { AreWorkers workers }
    ensures { IfOk result (EndsAsAsked live.now.graph firings workers) }
{
    let work = Line::prepare(alloc, live, workers)?;
    Ok(line_runs::run_until(rt, live, work, firings, gate))
}

/// What a run answers that ended so: the report of its dates, or the save of its state.
fn end_run<S: Store>(
    alloc: Global,
    line: LivePlant,
    outcome: Outcome,
    workers: u32,
    stop: Stop,
    store: &mut S,
) -> Result<Answer, Refusal>
    requires plant { IsLivePlant line }
    requires outcome { EndsAsAsked line.live.graph stop.after workers outcome }
    ensures { DoesOnStore (store_over S.tells (S.shown store.old) (S.shown store.new))
        (RunsUntil line.plant workers stop.after stop.save) result }
{
    match outcome {
        Outcome::Finished(table) => report_of(alloc, line, table, workers),
        Outcome::Stopped(state) => save(alloc, line, state, stop, store),
    }
}

/// What a run answers that stopped in this state: the state is saved in the file of the stop.
fn save<S: Store>(
    alloc: Global,
    line: LivePlant,
    state: State,
    stop: Stop,
    store: &mut S,
) -> Result<Answer, Refusal>
    requires { line.live.graph ≡ state.graph }
    ensures { DoesOnStore (store_over S.tells (S.shown store.old) (S.shown store.new))
        (SavesText stop.save (text_of state) (firing_count state.state)) result }
{
    let saved = save_state(alloc, &line.live, &state, store, stop.save.as_str());
    let fired = state.fired();
    drop(state);
    drop(line);
    saved_answer(saved, fired, stop.save)
}

/// What a run answers that stopped after this many firings, by how the save of its state into this file ended.
fn saved_answer(
    saved: Result<(), StoreError>,
    fired: u64,
    file: FileName,
) -> Result<Answer, Refusal>
    requires { ¬ (IsErrOf saved StoreError.TooLong) }
    ensures { AnswersWrite file fired saved result }
{
    match saved {
        Ok(()) => Ok(Answer::Stopped { fired }),
        Err(StoreError::Failed) => Err(Refusal::StoreFault { file }),
        Err(StoreError::NoMemory) => Err(Refusal::NoMemory),
        Err(StoreError::TooLong) => unreachable!(),
    }
}
