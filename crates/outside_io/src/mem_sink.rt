ghost use Rattle.std.specs.Prelude.{◌≡◌, ◌+◌, ◌≤◌, ◌++◌, [], length, vec_len, vec_capacity, IfOk};

use crate::fail_plan::FailPlan;
use crate::sink::{Failed, Sink};
use std::alloc::{AllocError, Global};

/// A sink in memory, with a room that is taken at the start.
#[derive(Drop)]
pub struct MemSink {
    bytes: Vec<u8>,
    room: u32,
    keep: u32,
    plan: FailPlan,
    faults: u64,
    ghost fits: { vec_len bytes ≤ room },
    ghost has_room: { room ≤ vec_capacity bytes },
}

/// Appends what there is room for.
fn append(bytes: &mut Vec<u8>, piece: &[u8])
    requires { vec_len bytes.old + length piece.now ≤ vec_capacity bytes.old }
    ensures items { bytes.new.items ≡ bytes.old.items ++ piece.now }
    ensures len { vec_len bytes.new ≡ vec_len bytes.old + length piece.now }
    ensures capacity { vec_capacity bytes.old ≤ vec_capacity bytes.new }
{
    bytes.extend_from_slice(piece).unwrap();
}

impl MemSink {
    ghost use Rattle.outside_io.specs.Memory.{sink_view, IsNewSink};

    /// An empty sink for `room` bytes. The calls whose numbers, from 1, are in `failing` fail, and
    /// so does a piece that does not fit. A failing call keeps the first `keep` bytes of its piece,
    /// as far as they fit.
    pub fn new(
        alloc: Global,
        room: u32,
        failing: Vec<u32>,
        keep: u32,
    ) -> Result<MemSink, AllocError>
        ensures { IfOk result (λ sink. IsNewSink sink room failing.items keep) }
    {
        let bytes = Vec::with_capacity(alloc, room as usize)?;
        Ok(MemSink {
            bytes,
            room,
            keep,
            plan: FailPlan::new(failing),
            faults: 0,
        })
    }

    /// All that was written. It takes no memory.
    pub fn written(&self) -> &[u8]
        ensures { result.now ≡ (sink_view self.now).written }
    {
        &self.bytes
    }
}

impl Sink for MemSink {
    ghost use Rattle.std.specs.Prelude.{◌<◌, ◌↔◌, ◌⊎◌, IsErr, OnOk, OnErr};
    ghost use Rattle.outside_io.specs.FailPlans.{IsDue, Counts};
    ghost use Rattle.outside_io.specs.Faults.{Rose, RoseByOne};
    ghost use Rattle.outside_io.specs.Memory.{sink_view, sink_plan, room_left, kept_of, IsMadeAlike};
    ghost use Rattle.outside_io.specs.SinkView.{PutsAll, PutsPrefix};

    ghost shown = { sink_view };

    fn put(&mut self, piece: &[u8]) -> Result<(), Failed>
        ensures refused { IsErr result ↔ (IsDue (sink_plan self.old) ⊎ (room_left self.old < length piece.now)) }
        ensures kept { OnErr result (PutsAll (sink_view self.old) (sink_view self.new) (kept_of self.old piece.now)) }
        ensures counted { Counts (sink_plan self.old) (sink_plan self.new) }
        ensures made_alike { IsMadeAlike self.old self.new }
        ensures appended { OnOk result (PutsAll (sink_view self.old) (sink_view self.new) piece.now) }
        ensures prefix { OnErr result (PutsPrefix (sink_view self.old) (sink_view self.new) piece.now) }
        ensures cause { OnErr result (Rose (sink_view self.old).faults (sink_view self.new).faults) }
        ensures once { OnErr result (RoseByOne (sink_view self.old).faults (sink_view self.new).faults) }
        ensures faults_stay { OnOk result ((sink_view self.new).faults ≡ (sink_view self.old).faults) }
        ensures faults_stay_or_rise { (sink_view self.old).faults ≤ (sink_view self.new).faults }
    {
        let is_due = self.plan.next();
        let left = self.room as usize - self.bytes.len();
        if !is_due && piece.len() <= left {
            append(&mut self.bytes, piece);
            return Ok(());
        }
        let kept = piece.len().min(left).min(self.keep as usize);
        append(&mut self.bytes, &piece[..kept]);
        self.faults = self.faults.saturating_add(1);
        Err(Failed)
    }
}
