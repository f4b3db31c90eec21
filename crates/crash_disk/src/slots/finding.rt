//! How the slot that a save writes to is found.
ghost use Rattle.std.specs.Prelude.{◌≡◌, ◌≤◌, ◌++◌, ◌∷◌, [], ℕ, IsTrue, IfOk, OnOk, IsErrOf};
ghost use Rattle.crash_disk.specs.DiskView.{MayLeave, LeavesOnly, disk_sync, held_now};
ghost use Rattle.crash_disk.specs.Crash.{IsSettled, TellsGate, IsReady, bytes_now};
ghost use Rattle.crash_disk.specs.SaveCalls.{Asks, FindsTarget};
ghost use Rattle.crash_disk.specs.Within.{OutsideStays};
ghost use Rattle.outside_io.specs.Faults.{Rose};

use super::head::{MAX_ROOM, read_heads};
use super::target::{Target, target_of};
use crate::disk::{Disk, DiskError};
use std::alloc::Global;

/// Makes all that was written before durable: a write that is pending could open a gate over torn bytes.
fn settle<D: Disk>(disk: &mut D) -> Result<(), DiskError>
    ensures bytes_stay { IsTrue D.tells → (i : ℕ)
        → bytes_now (D.shown disk.new) i ≡ bytes_now (D.shown disk.old) i }
    ensures any_moment { IsTrue D.tells → LeavesOnly (D.shown disk.old) (D.shown disk.new)
        (MayLeave (held_now (D.shown disk.old))) }
    ensures settled { OnOk result (IsTrue D.tells → IsSettled (held_now (D.shown disk.new))) }
    ensures cause { IsErrOf result DiskError.Failed
        → Rose (D.shown disk.old).faults (D.shown disk.new).faults }
    ensures faults_stay_or_rise { (D.shown disk.old).faults ≤ (D.shown disk.new).faults }
    ensures recorded { (D.shown disk.new).asked ≡ (D.shown disk.old).asked ++ disk_sync result ∷ [] }
{
    disk.sync()
}

/// Syncs, so that nothing is pending, and reads the heads of both slots: which one is to be written. A crash leaves
/// nothing but what it might have left before.
pub fn find_target<D: Disk>(disk: &mut D, alloc: Global, room: u64) -> Result<Target, DiskError>
    requires { room ≤ MAX_ROOM }
    ensures outside_stays { OutsideStays D.tells room (D.shown disk.old) (D.shown disk.new) }
    ensures any_moment { IsTrue D.tells → LeavesOnly (D.shown disk.old) (D.shown disk.new)
        (MayLeave (held_now (D.shown disk.old))) }
    ensures ready { IfOk result
        (λ target. IsTrue D.tells → IsReady (D.shown disk.new) room target) }
    ensures gate { IfOk result
        (λ target. IsTrue D.tells → TellsGate (bytes_now (D.shown disk.new)) room target) }
    ensures cause { IsErrOf result DiskError.Failed
        → Rose (D.shown disk.old).faults (D.shown disk.new).faults }
    ensures faults_stay_or_rise { (D.shown disk.old).faults ≤ (D.shown disk.new).faults }
    ensures asks { Asks (D.shown disk.old) (D.shown disk.new) (λ calls. FindsTarget room calls result) }
{
    settle(disk)?;
    let (zero, one) = read_heads(disk, alloc, room)?;
    Ok(target_of(zero, one, room))
}
