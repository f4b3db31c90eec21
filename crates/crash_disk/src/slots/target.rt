//! The slot that a save writes to, by the heads of both.
ghost use Rattle.std.specs.Prelude.{◌≡◌};
ghost use Rattle.crash_disk.specs.Layout.{newer_head, target_by};

use super::head::{Head, OPEN, Slot, newer, next};

/// The slot that a save writes to, the number that it gets, and whether its gate is open now.
#[derive(Clone, Copy)]
pub struct Target {
    pub slot: Slot,
    pub number: u8,
    pub gate_is_open: bool,
}

/// The slot that is not the newer one, with the number after that of the newer, or slot 0 with number 0 where none is
/// open.
pub fn target_of(zero: Head, one: Head, room: u64) -> Target
    ensures { result ≡ target_by (newer_head room zero one) zero one }
{
    match newer(zero, one, room) {
        None => Target {
            slot: Slot::Zero,
            number: 0,
            gate_is_open: zero.gate == OPEN,
        },
        Some((Slot::Zero, head)) => Target {
            slot: Slot::One,
            number: next(head.number),
            gate_is_open: one.gate == OPEN,
        },
        Some((Slot::One, head)) => Target {
            slot: Slot::Zero,
            number: next(head.number),
            gate_is_open: zero.gate == OPEN,
        },
    }
}
