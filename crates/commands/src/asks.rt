//! What is asked: each kind of question is matched once.
ghost use Rattle.std.specs.Prelude.{◌≡◌, ◌⊎◌, ◌≤◌, length, Err, IfErr};
ghost use Rattle.command_line.specs.Ranges.{IsAloneInRange, IsDiskInRange, IsFileInRange, IsPlantInRange};
ghost use Rattle.commands.specs.Answers.{AnswersAlone, AnswersOfFile, AnswersOfPlant};
ghost use Rattle.commands.specs.Saving.{DoesOnSlots};
ghost use Rattle.line_base.specs.Limits.{most_checkpoint_bytes};
ghost use Rattle.live_plant.specs.Actions.{disk_over, DoesOnDisk};
ghost use Rattle.live_plant.specs.LivePlant.{IsLivePlant};
ghost use Rattle.live_plant.specs.Outside.{NeedsNoCause};

use crate::big::big;
use crate::cards::{cards, cards_each, curve};
use crate::causes::why;
use crate::dates::{chart, date_table, summary};
use crate::edits::what_if;
use crate::graphs::{check, cycle_of};
use crate::lateness::latest;
use crate::replaying::replay;
use crate::runs::{resume, run_whole};
use crate::slots::{resume_slots, run_with_slots};
use answers::Answer;
use command_line::{AloneQuestion, DiskQuestion, FileQuestion, PlantQuestion};
use crash_disk::Disk;
use line_workers::Gate;
use live_plant::{LivePlant, Refusal};
use std::alloc::Global;
use std::thread::Threads;

/// Answers a question for which nothing is read.
#[tactic(auto, using(crate::proofs::Asked::alone_asked, crate::proofs::NoCauses::text_inside, crate::proofs::NoCauses::least_inside))]
pub fn ask_alone<R: Threads + Sync, G: Gate>(
    rt: &R,
    alloc: Global,
    question: AloneQuestion,
    gate: &G,
) -> Result<Answer, Refusal>
    requires range { IsAloneInRange question }
    ensures answers { AnswersAlone question result ⊎ (result ≡ Err Refusal.NoMemory) }
    ensures inside { IfErr result NeedsNoCause }
{
    match question {
        AloneQuestion::Help { topic } => Ok(Answer::Help { topic }),
        AloneQuestion::Version => Ok(Answer::Version),
        AloneQuestion::Big { seed, workers } => big(rt, alloc, seed, workers, gate),
    }
}

/// Answers a question about a live plant.
#[tactic(auto, using(crate::proofs::Asked::plant_asked, crate::proofs::NoCauses::text_inside, crate::proofs::NoCauses::least_inside, crate::proofs::NoCauses::cycle_inside, crate::proofs::NoCauses::cards_inside, crate::proofs::NoCauses::each_inside, crate::proofs::NoCauses::curve_inside, crate::proofs::NoCauses::latest_inside, crate::proofs::NoCauses::why_inside, crate::proofs::NoCauses::chart_inside))]
pub fn ask_plant<R: Threads + Sync, G: Gate>(
    rt: &R,
    alloc: Global,
    line: LivePlant,
    question: PlantQuestion,
    gate: &G,
) -> Result<Answer, Refusal>
    requires plant { IsLivePlant line }
    requires range { IsPlantInRange question }
    ensures answers { AnswersOfPlant question line.plant result ⊎ (result ≡ Err Refusal.NoMemory) }
    ensures inside { IfErr result NeedsNoCause }
{
    match question {
        PlantQuestion::Run { workers } => run_whole(rt, alloc, line, workers, None, gate),
        PlantQuestion::RunRoom { room, workers } => {
            run_whole(rt, alloc, line, workers, Some(room), gate)
        }
        PlantQuestion::Check => {
            let answer = check(alloc, &line);
            drop(line);
            answer
        }
        PlantQuestion::Cycle => {
            let answer = cycle_of(alloc, &line);
            drop(line);
            answer
        }
        PlantQuestion::Cards { wait } => {
            let answer = cards(alloc, &line, wait);
            drop(line);
            answer
        }
        PlantQuestion::CardsEach { wait } => {
            let answer = cards_each(alloc, &line, wait);
            drop(line);
            answer
        }
        PlantQuestion::Curve { from, to, workers } => curve(line, from, to, workers),
        PlantQuestion::Latest { wait } => latest(alloc, line, wait),
        PlantQuestion::Why { label, job } => why(alloc, line, label, job),
        PlantQuestion::Summary => summary(alloc, line),
        PlantQuestion::Chart { window } => chart(alloc, line, window),
        PlantQuestion::Table => date_table(alloc, line),
    }
}

/// Answers a question about a live plant and the bytes of a further file.
#[tactic(auto, using(crate::proofs::Asked::file_asked, crate::proofs::NoCauses::resumed_inside, crate::proofs::NoCauses::end_inside, crate::proofs::NoCauses::edits_inside))]
pub fn ask_file<R: Threads + Sync, G: Gate>(
    rt: &R,
    alloc: Global,
    line: LivePlant,
    bytes: &[u8],
    question: FileQuestion,
    gate: &G,
) -> Result<Answer, Refusal>
    requires plant { IsLivePlant line }
    requires short { length bytes.now ≤ most_checkpoint_bytes }
    requires range { IsFileInRange question }
    ensures answers { AnswersOfFile question line.plant bytes.now result ⊎ (result ≡ Err Refusal.NoMemory) }
    ensures inside { IfErr result NeedsNoCause }
{
    match question {
        FileQuestion::Resume { workers } => resume(rt, alloc, line, bytes, workers, gate),
        FileQuestion::Replay => replay(alloc, line, bytes),
        FileQuestion::WhatIf => what_if(alloc, line, bytes),
    }
}

/// Answers a question about a live plant and the slots of a disk.
pub fn ask_disk<R: Threads + Sync, G: Gate, D: Disk>(
    rt: &R,
    alloc: Global,
    line: LivePlant,
    question: DiskQuestion,
    gate: &G,
    disk: &mut D,
) -> Result<Answer, Refusal>
    requires plant { IsLivePlant line }
    requires range { IsDiskInRange question }
    ensures { DoesOnDisk (disk_over D.tells (D.shown disk.old) (D.shown disk.new))
        (DoesOnSlots question line.plant) result }
{
    match question {
        DiskQuestion::RunSlots { every, workers } => {
            run_with_slots(rt, alloc, line, workers, every, gate, disk)
        }
        DiskQuestion::ResumeSlots { workers } => {
            resume_slots(rt, alloc, line, disk, workers, gate)
        }
    }
}
