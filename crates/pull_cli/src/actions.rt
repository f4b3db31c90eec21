//! What each command answers: the live plant is read, and then the further file, and what is asked is asked of them. A
//! refusal of a reading is that of the command.
ghost use Rattle.command_line.specs.Ranges.{AreWorkers, IsDiskInRange, IsFileInRange, IsInRange, IsPlantInRange};
ghost use Rattle.commands.specs.Answers.{AnswersOfFile};
ghost use Rattle.live_plant.specs.Actions.{disk_over, DoesOnStore};
ghost use Rattle.live_plant.specs.LivePlant.{IsLivePlant};
ghost use Rattle.live_plant.specs.Outside.{store_over};
ghost use Rattle.live_plant.specs.Steps.{Makes};
ghost use Rattle.pull_cli.specs.Verdict.{AsksWith, CommandDoes, OfCommand};

use answers::Answer;
use command_line::{Command, DiskQuestion, FileQuestion, PlantQuestion, PlantSource, Stop};
use commands::{ask_alone, ask_disk, ask_file, ask_plant, run_standing, run_until};
use crash_disk::Disk;
use line_workers::Gate;
use live_plant::{LivePlant, Refusal, lint_plant_file, read_file, read_source};
use outside_io::Store;
use std::alloc::Global;
use std::sync::Wait;
use std::thread::Threads;

/// Does what a command asks for, and waits for nothing. A run by standing workers is done by bursts, which write the
/// same.
pub fn do_still<R: Threads + Sync, S: Store, G: Gate, D: Disk>(
    rt: &R,
    alloc: Global,
    command: Command,
    store: &mut S,
    gate: &G,
    disk: &mut D,
) -> Result<Answer, Refusal>
    requires range { IsInRange command }
    ensures { CommandDoes (store_over S.tells (S.shown store.old) (S.shown store.new))
        (disk_over D.tells (D.shown disk.old) (D.shown disk.new)) command result }
{
    match command {
        Command::Alone { question } => ask_alone(rt, alloc, question, gate),
        Command::Lint { file } => lint_plant(alloc, store, file.as_str()),
        Command::OnPlant { plant, question } => {
            ask_of_plant(rt, alloc, store, &plant, question, gate)
        }
        Command::OnFile {
            plant,
            file,
            question,
        } => ask_of_file(rt, alloc, store, &plant, file.as_str(), question, gate),
        Command::Standing { plant, workers } => {
            let question = PlantQuestion::Run { workers };
            ask_of_plant(rt, alloc, store, &plant, question, gate)
        }
        Command::Stopping {
            plant,
            workers,
            stop,
        } => stop_plant(rt, alloc, store, &plant, workers, stop, gate),
        Command::OnDisk { plant, question } => {
            ask_of_disk(rt, alloc, store, &plant, question, gate, disk)
        }
    }
}

/// What lint says of a plant file and of the files that it names.
fn lint_plant<S: Store>(alloc: Global, store: &mut S, file: &str) -> Result<Answer, Refusal>
    ensures { DoesOnStore (store_over S.tells (S.shown store.old) (S.shown store.new))
        (OfCommand S.tells (S.shown store.old).files (Command.Lint file.now)) result }
{
    let text = lint_plant_file(alloc, store, file)?;
    Ok(Answer::Text { text })
}

/// What is answered about a live plant, which is read.
fn ask_of_plant<R: Threads + Sync, S: Store, G: Gate>(
    rt: &R,
    alloc: Global,
    store: &mut S,
    plant: &PlantSource,
    question: PlantQuestion,
    gate: &G,
) -> Result<Answer, Refusal>
    requires range { IsPlantInRange question }
    ensures { DoesOnStore (store_over S.tells (S.shown store.old) (S.shown store.new))
        (OfCommand S.tells (S.shown store.old).files (Command.OnPlant plant.now question)) result }
{
    let line = read_source(alloc, store, plant)?;
    ask_plant(rt, alloc, line, question, gate)
}

/// What is answered about a live plant and a further file, which are read.
fn ask_of_file<R: Threads + Sync, S: Store, G: Gate>(
    rt: &R,
    alloc: Global,
    store: &mut S,
    plant: &PlantSource,
    file: &str,
    question: FileQuestion,
    gate: &G,
) -> Result<Answer, Refusal>
    requires range { IsFileInRange question }
    ensures { DoesOnStore (store_over S.tells (S.shown store.old) (S.shown store.new))
        (OfCommand S.tells (S.shown store.old).files (Command.OnFile plant.now file.now question)) result }
{
    let line = read_source(alloc, store, plant)?;
    ask_with(rt, alloc, line, file, question, store, gate)
}

/// What is answered about a live plant and a further file, which is read.
fn ask_with<R: Threads + Sync, S: Store, G: Gate>(
    rt: &R,
    alloc: Global,
    line: LivePlant,
    file: &str,
    question: FileQuestion,
    store: &mut S,
    gate: &G,
) -> Result<Answer, Refusal>
    requires plant { IsLivePlant line }
    requires range { IsFileInRange question }
    ensures { Makes (store_over S.tells (S.shown store.old) (S.shown store.new))
        (AsksWith file.now (AnswersOfFile question line.plant)) result }
{
    match read_file(alloc, store, file) {
        Ok(bytes) => ask_file(rt, alloc, line, bytes.as_slice(), question, gate),
        Err(refusal) => {
            drop(line);
            Err(refusal)
        }
    }
}

/// What a run of a live plant, which is read, answers that is asked to stop.
fn stop_plant<R: Threads + Sync, S: Store, G: Gate>(
    rt: &R,
    alloc: Global,
    store: &mut S,
    plant: &PlantSource,
    workers: u32,
    stop: Stop,
    gate: &G,
) -> Result<Answer, Refusal>
    requires workers { AreWorkers workers }
    ensures { DoesOnStore (store_over S.tells (S.shown store.old) (S.shown store.new))
        (OfCommand S.tells (S.shown store.old).files (Command.Stopping plant.now workers stop)) result }
{
    let line = read_source(alloc, store, plant)?;
    run_until(rt, alloc, line, workers, stop, gate, store)
}

/// What is answered about a live plant, which is read, and the slots of a disk.
fn ask_of_disk<R: Threads + Sync, S: Store, G: Gate, D: Disk>(
    rt: &R,
    alloc: Global,
    store: &mut S,
    plant: &PlantSource,
    question: DiskQuestion,
    gate: &G,
    disk: &mut D,
) -> Result<Answer, Refusal>
    requires range { IsDiskInRange question }
    ensures { CommandDoes (store_over S.tells (S.shown store.old) (S.shown store.new))
        (disk_over D.tells (D.shown disk.old) (D.shown disk.new)) (Command.OnDisk plant.now question) result }
{
    let line = read_source(alloc, store, plant)?;
    ask_disk(rt, alloc, line, question, gate, disk)
}

/// What `run PLANT --stand [--workers W]` answers. It waits for its threads, and doesn't promise to return.
pub fn stand_plant<R: Threads + Wait + Sync, S: Store, G: Gate>(
    rt: &R,
    alloc: Global,
    store: &mut S,
    plant: &PlantSource,
    workers: u32,
    gate: &G,
) -> Result<Answer, Refusal>
    requires workers { AreWorkers workers }
    ensures { DoesOnStore (store_over S.tells (S.shown store.old) (S.shown store.new))
        (OfCommand S.tells (S.shown store.old).files (Command.Standing plant.now workers)) result }
{
    let line = read_source(alloc, store, plant)?;
    run_standing(rt, alloc, line, workers, gate)
}
