ghost use Rattle.std.specs.Prelude.{◌≡◌, ℕ, ◌≤◌, IsTrue, IfOk, IsErrOf};
ghost use Rattle.line_base.specs.Limits.{most_workers};
ghost use Rattle.crash_disk.specs.DiskView.{Stays};
ghost use Rattle.outside_io.specs.Faults.{Rose};
ghost use Rattle.line_runs.specs.ResumeSlots.{AnswersLoad, ResumesSlots};
ghost use Rattle.line_runs.specs.Scheduler.{IsResumedFromSlots};
ghost use Rattle.crash_disk.specs.declared.slots.error.SlotError.TheVariants.{TooLong};

use crate::error::ResumeError;
use crate::resuming::resume;
use crash_disk::Disk;
use crash_disk::slots::{MAX_ROOM, SlotError, Slots};
use line_core::Table;
use line_workers::Gate;
use live_check::Live;
use std::alloc::Global;
use std::thread::Threads;

/// Why no run goes on where the slots gave nothing. A load never finds a content too long.
fn not_loaded(refusal: SlotError) -> ResumeError
    requires { (have : ℕ) → ¬ (refusal ≡ TooLong have) }
    ensures { AnswersLoad refusal result }
{
    match refusal {
        SlotError::NoneSaved => ResumeError::NothingSaved,
        SlotError::DiskFault => ResumeError::DiskFault,
        SlotError::NoMemory => ResumeError::NoMemory,
        SlotError::TooLong { .. } => unreachable!(),
    }
}

/// Goes on from what the two slots of a disk hold, by as many of this many workers as pay, until every station has
/// fired once for each job. The table is the least solution of the graph. The disk is as before.
pub fn resume_slots<R: Threads + Sync, G: Gate, D: Disk>(
    rt: &R,
    alloc: Global,
    live: &Live,
    disk: &mut D,
    workers: u32,
    gate: &G,
) -> Result<Table, ResumeError>
    requires some { 1 ≤ workers }
    requires few { workers ≤ most_workers }
    ensures resumes { ResumesSlots D.tells (D.shown disk.old) (D.shown disk.new) MAX_ROOM
        live.now.graph result }
    ensures by { IfOk result
        (IsResumedFromSlots D.tells (D.shown disk.old) MAX_ROOM live.now workers) }
    ensures stays { IsTrue D.tells → Stays (D.shown disk.old) (D.shown disk.new) }
    ensures disk_fault { IsErrOf result ResumeError.DiskFault
        → Rose (D.shown disk.old).faults (D.shown disk.new).faults }
    ensures faults_stay_or_rise { (D.shown disk.old).faults ≤ (D.shown disk.new).faults }
{
    match Slots::new(disk, MAX_ROOM).load(alloc) {
        Ok(text) => Ok(resume(rt, alloc, live, text.as_slice(), workers, gate)?),
        Err(refusal) => Err(not_loaded(refusal)),
    }
}
