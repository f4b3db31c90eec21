ghost use Rattle.std.specs.Prelude.{◌≡◌, ℕ, ◌+◌, ◌*◌, ◌<◌, ◌≤◌, ◌↔◌, IsTrue, IfOk, OnOk, IsErrOf};
ghost use Rattle.checkpoint.specs.Kept.{Follows};
ghost use Rattle.event_graph.specs.Network.{stations};
ghost use Rattle.line_core.specs.Consistent.{firing_count};
ghost use Rattle.crash_disk.specs.DiskView.{LeavesOnly, held_now};
ghost use Rattle.outside_io.specs.Faults.{Rose};
ghost use Rattle.line_runs.specs.Saves.{IsDue, SavesIfDue, HasSaved, IsLateState};
ghost use Rattle.line_runs.specs.Saves.{IsOldOrState, HasTooLongState};
ghost use Rattle.line_runs.specs.AllFirings.{all_firings};
ghost use Rattle.line_runs.specs.Store.{text_of, IsOver};
ghost use Rattle.line_runs.specs.Table.{IsLeastOf};
ghost use Rattle.line_worker.specs.Sweeps.{most_sweeps};
ghost use Rattle.line_workers.specs.Line.{IsLine, run_in};
ghost use Rattle.crash_disk.specs.Crash.{IsOldOrNew, IsSaved};
ghost use Rattle.crash_disk.specs.declared.slots.error.SlotError.TheVariants.{TooLong};

use crate::run::table_of;
use crate::scheduler::bursts::burst_on;
use checkpoint::KeptText;
use crash_disk::Disk;
use crash_disk::slots::{MAX_ROOM, SlotError, Slots};
use line_core::Table;
use line_workers::{Gate, Line};
use live_check::Live;
use std::alloc::{AllocError, Global};
use std::thread::Threads;

/// What a run keeps of its last save for the next one.
#[derive(Drop)]
struct LastSave {
    // How many firings the state has that was saved; as long as none was, how many that has with which the run began.
    fired: u64,
    // The text that was saved, with the words of its dates.
    kept: KeptText,
}

impl LastSave {
    /// Of a run that begins with this line, and has saved nothing.
    fn none(alloc: Global, live: &Live, line: &Line) -> Result<LastSave, AllocError>
        requires { live.now ≡ line.now.live }
        ensures fired { IfOk result (λ last. last.fired ≡ firing_count line.now.state) }
        ensures follows { IfOk result
            (λ last. Follows line.now.live.graph line.now.state last.kept) }
        ensures line { IsLine line.now }
    {
        let fired = line.fired();
        let kept = KeptText::new(alloc, live)?;
        Ok(LastSave { fired, kept })
    }
}

/// Saves a text as the content of a disk's two slots.
fn save_text<D: Disk>(alloc: Global, text: &[u8], disk: &mut D) -> Result<(), SlotError>
    ensures any_moment { IsTrue D.tells → LeavesOnly (D.shown disk.old) (D.shown disk.new)
        (IsOldOrNew (held_now (D.shown disk.old)) MAX_ROOM text.now) }
    ensures saved { OnOk result (IsTrue D.tells
        → IsSaved (held_now (D.shown disk.new)) MAX_ROOM text.now) }
    ensures too_long { (have : ℕ) → IsErrOf result (TooLong have)
        → IsOver MAX_ROOM have text.now }
    ensures disk_fault { IsErrOf result SlotError.DiskFault
        → Rose (D.shown disk.old).faults (D.shown disk.new).faults }
    ensures never_none_saved { ¬ (IsErrOf result SlotError.NoneSaved) }
    ensures faults_stay_or_rise { (D.shown disk.old).faults ≤ (D.shown disk.new).faults }
{
    Slots::new(disk, MAX_ROOM).save(alloc, text)
}

/// Saves the state that a line stands for as the content of a disk's two slots. Of its text only the words of those
/// dates are written that the text before didn't have.
fn save_line<D: Disk>(
    alloc: Global,
    live: &Live,
    line: &Line,
    kept: &mut KeptText,
    disk: &mut D,
) -> Result<(), SlotError>
    requires made_for { live.now ≡ line.now.live }
    requires follows { Follows line.now.live.graph line.now.state kept.old }
    ensures follows { OnOk result (Follows line.now.live.graph line.now.state kept.new) }
    ensures any_moment { IsTrue D.tells → LeavesOnly (D.shown disk.old) (D.shown disk.new)
        (IsOldOrNew (held_now (D.shown disk.old)) MAX_ROOM (text_of (run_in line.now))) }
    ensures saved { OnOk result (IsTrue D.tells
        → IsSaved (held_now (D.shown disk.new)) MAX_ROOM (text_of (run_in line.now))) }
    ensures too_long { (have : ℕ) → IsErrOf result (TooLong have)
        → IsOver MAX_ROOM have (text_of (run_in line.now)) }
    ensures disk_fault { IsErrOf result SlotError.DiskFault
        → Rose (D.shown disk.old).faults (D.shown disk.new).faults }
    ensures never_none_saved { ¬ (IsErrOf result SlotError.NoneSaved) }
    ensures faults_stay_or_rise { (D.shown disk.old).faults ≤ (D.shown disk.new).faults }
{
    match kept.write(live, line) {
        Ok(()) => save_text(alloc, kept.text(), disk),
        Err(_) => Err(SlotError::NoMemory),
    }
}

/// Whether a line is to be saved: this many firings were made since the last save, and not all.
fn is_due(line: &Line, every: u64, saved: u64) -> bool
    requires { saved ≤ firing_count line.now.state }
    ensures due { IsTrue result ↔ IsDue every saved line.now }
    ensures line { IsLine line.now }
{
    !line.finished() && line.fired() - saved >= every
}

/// Saves the state that a line stands for where that is due.
fn save_if_due<D: Disk>(
    alloc: Global,
    live: &Live,
    line: &Line,
    every: u64,
    last: &mut LastSave,
    disk: &mut D,
) -> Result<(), SlotError>
    requires made_for { live.now ≡ line.now.live }
    requires before { last.old.fired ≤ firing_count line.now.state }
    requires follows { Follows line.now.live.graph line.now.state last.old.kept }
    ensures saved { OnOk result (SavesIfDue D.tells MAX_ROOM every line.now last.old.fired
        last.new.fired (D.shown disk.old) (D.shown disk.new)) }
    ensures follows { OnOk result (Follows line.now.live.graph line.now.state last.new.kept) }
    ensures any_moment { IsTrue D.tells → LeavesOnly (D.shown disk.old) (D.shown disk.new)
        (IsOldOrState (held_now (D.shown disk.old)) MAX_ROOM line.now.live.graph) }
    ensures too_long { (have : ℕ) → IsErrOf result (TooLong have)
        → HasTooLongState line.now.live.graph MAX_ROOM have }
    ensures disk_fault { IsErrOf result SlotError.DiskFault
        → Rose (D.shown disk.old).faults (D.shown disk.new).faults }
    ensures never_none_saved { ¬ (IsErrOf result SlotError.NoneSaved) }
    ensures faults_stay_or_rise { (D.shown disk.old).faults ≤ (D.shown disk.new).faults }
{
    if !is_due(line, every, last.fired) {
        return Ok(());
    }
    save_line(alloc, live, line, &mut last.kept, disk)?;
    last.fired = line.fired();
    Ok(())
}

/// Lets a line work until every station has fired once for each job. At each burst's end that
/// leaves firings, the state is saved in the two slots of a disk, where this many firings were made
/// since the last save or the beginning.
///
/// A crash at any moment leaves what it might have left when the call began, or the text of a state
/// of the run, from which `resume_slots` gets the same dates.
pub fn run_with_slots<R: Threads + Sync, G: Gate, D: Disk>(
    rt: &R,
    alloc: Global,
    live: &Live,
    line: Line,
    every: u64,
    gate: &G,
    disk: &mut D,
) -> Result<Table, SlotError>
    requires made_for { live.now ≡ line.live }
    requires some { 1 ≤ every }
    ensures table { IfOk result (IsLeastOf live.now.graph) }

    // The state was saved whenever that was due, and last of all when few firings were left.
    ensures saves { IfOk result
        (HasSaved D.tells MAX_ROOM every line (D.shown disk.old) (D.shown disk.new)) }
    ensures late { OnOk result (IsTrue D.tells
        → firing_count line.state + every + most_sweeps * stations live.now.graph ≤ all_firings live.now.graph
        → IsLateState live.now.graph every MAX_ROOM (held_now (D.shown disk.new))) }

    // What a crash leaves, whatever is answered.
    ensures any_moment { IsTrue D.tells → LeavesOnly (D.shown disk.old) (D.shown disk.new)
        (IsOldOrState (held_now (D.shown disk.old)) MAX_ROOM live.now.graph) }

    // When each error comes; out of memory is free.
    ensures too_long { (have : ℕ) → IsErrOf result (TooLong have)
        → HasTooLongState live.now.graph MAX_ROOM have }
    ensures disk_fault { IsErrOf result SlotError.DiskFault
        → Rose (D.shown disk.old).faults (D.shown disk.new).faults }
    ensures never_none_saved { ¬ (IsErrOf result SlotError.NoneSaved) }
    ensures faults_stay_or_rise { (D.shown disk.old).faults ≤ (D.shown disk.new).faults }
{
    let mut line = line;
    let mut last = match LastSave::none(alloc, live, &line) {
        Ok(last) => last,
        Err(_) => {
            drop(line);
            return Err(SlotError::NoMemory);
        }
    };
    while !line.finished() {
        burst_on(rt, live, &mut line, gate);
        if let Err(error) = save_if_due(alloc, live, &line, every, &mut last, disk) {
            drop(last);
            drop(line);
            return Err(error);
        }
    }
    drop(last);
    Ok(table_of(live, line))
}
