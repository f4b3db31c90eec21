//! Runs of a live plant with the two slots of a disk.
ghost use Rattle.std.specs.Prelude.{◌≡◌, ℕ, ◌≤◌};
ghost use Rattle.command_line.specs.Ranges.{AreWorkers};
ghost use Rattle.event_graph.specs.State.{start};
ghost use Rattle.commands.specs.Saving.{NamesStationOf, IsResumeRefusal};
ghost use Rattle.commands.specs.Saving.{RunsWithSlots, ResumesSlots, AnswersSave};
ghost use Rattle.live_plant.specs.Actions.{disk_over, DoesOnDisk};
ghost use Rattle.live_plant.specs.LivePlant.{IsLivePlant};
ghost use Rattle.crash_disk.specs.declared.slots.error.SlotError.TheVariants.{TooLong};

use crate::reports::report_of;
use answers::Answer;
use crash_disk::Disk;
use crash_disk::slots::SlotError;
use event_graph::Graph;
use line_runs::ResumeError;
use line_workers::{Gate, Line};
use live_plant::{LivePlant, Refusal, checkpoint_refusal};
use std::alloc::Global;
use std::thread::Threads;

/// Runs a live plant to its end, by this many workers, and saves its state in the slots each time
/// that this many firings were made since the last save or the start.
pub fn run_with_slots<R: Threads + Sync, G: Gate, D: Disk>(
    rt: &R,
    alloc: Global,
    line: LivePlant,
    workers: u32,
    every: u64,
    gate: &G,
    disk: &mut D,
) -> Result<Answer, Refusal>
    requires plant { IsLivePlant line }
    requires workers { AreWorkers workers }
    requires every { 1 ≤ every }
    ensures { DoesOnDisk (disk_over D.tells (D.shown disk.old) (D.shown disk.new))
        (RunsWithSlots line.plant every) result }
{
    match Line::prepare(alloc, &line.live, workers) {
        Ok(work) => run_saving(rt, alloc, line, workers, work, every, gate, disk),
        Err(_) => {
            drop(line);
            Err(Refusal::NoMemory)
        }
    }
}

/// Runs a live plant to its end by a line of this many workers that stands at the start.
fn run_saving<R: Threads + Sync, G: Gate, D: Disk>(
    rt: &R,
    alloc: Global,
    line: LivePlant,
    workers: u32,
    work: Line,
    every: u64,
    gate: &G,
    disk: &mut D,
) -> Result<Answer, Refusal>
    requires plant { IsLivePlant line }
    requires made_for { line.live ≡ work.live }
    requires begun { work.state ≡ start line.live.graph }
    requires every { 1 ≤ every }
    ensures { DoesOnDisk (disk_over D.tells (D.shown disk.old) (D.shown disk.new))
        (RunsWithSlots line.plant every) result }
{
    match line_runs::run_with_slots(rt, alloc, &line.live, work, every, gate, disk) {
        Ok(table) => report_of(alloc, line, table, workers),
        Err(error) => {
            drop(line);
            Err(slot_refusal(error))
        }
    }
}

/// What a save answers that didn't go well. Every checkpoint of a plant fits the room of a slot.
fn slot_refusal(error: SlotError) -> Refusal
    requires fits { (have : ℕ) → ¬ (error ≡ TooLong have) }
    requires saves { ¬ (error ≡ SlotError.NoneSaved) }
    ensures { AnswersSave error result }
{
    match error {
        SlotError::DiskFault => Refusal::Disk,
        SlotError::NoMemory => Refusal::NoMemory,
        SlotError::NoneSaved | SlotError::TooLong { .. } => unreachable!(),
    }
}

/// Goes on from what the slots hold, by this many workers, to the end.
pub fn resume_slots<R: Threads + Sync, G: Gate, D: Disk>(
    rt: &R,
    alloc: Global,
    line: LivePlant,
    disk: &mut D,
    workers: u32,
    gate: &G,
) -> Result<Answer, Refusal>
    requires plant { IsLivePlant line }
    requires workers { AreWorkers workers }
    ensures { DoesOnDisk (disk_over D.tells (D.shown disk.old) (D.shown disk.new))
        (ResumesSlots line.plant) result }
{
    match line_runs::resume_slots(rt, alloc, &line.live, disk, workers, gate) {
        Ok(table) => report_of(alloc, line, table, workers),
        Err(error) => {
            let refusal = resume_refusal(alloc, line.live.graph(), error);
            drop(line);
            Err(refusal)
        }
    }
}

/// What slots answer from which no run goes on.
fn resume_refusal(alloc: Global, graph: &Graph, error: ResumeError) -> Refusal
    requires { NamesStationOf graph.now error }
    ensures { IsResumeRefusal graph.now error result }
{
    match error {
        ResumeError::NothingSaved => Refusal::NothingSaved,
        ResumeError::DiskFault => Refusal::Disk,
        ResumeError::NoMemory => Refusal::NoMemory,
        ResumeError::Checkpoint(error) => checkpoint_refusal(alloc, graph, error),
    }
}
