//! The rule of a ring's table, and the names of its steps.
ghost use Rattle.std.specs.Prelude.{◌≡◌, ◌<◌};
ghost use Rattle.room_ring.specs.Plays.{StoresCell, StoresTail, LoadsHead, LoadsTail, LoadsCell, StoresHead};
ghost use Rattle.room_ring.specs.Rule.{KeepsRule, cell_of};
ghost use Rattle.room_ring.specs.View.{first_putter, first_taker, note_of, spent_view, split_view, joined_view};

use crate::view::View;
use atomic_table::{Join, Play, Split, Table, TableRule};
use std::alloc::Global;

/// The words of a ring: the tail, the head, and then the cells, each of the three in a cache line of its own, with
/// words between that nobody reads.
pub(crate) type Words = Table<(), View, u64, Rule, Global>;

/// The word of the tail, which is how many tokens were put.
pub(crate) const TAIL: usize = 0;

/// The word of the head, which is how many tokens were taken.
pub(crate) const HEAD: usize = 8;

/// The word of the first cell.
pub(crate) const FIRST_CELL: usize = 16;

/// The word in which this token stands, counted from 0.
pub(crate) fn cell(room: u32, token: u64) -> usize
    requires { 0 < room }
    ensures { result ≡ cell_of room token }
{
    (token % u64::from(room)) as usize + FIRST_CELL
}

/// The rule that each step on a ring's words keeps.
pub(crate) struct Rule;

impl TableRule<(), View, u64> for Rule {
    ghost holds = { KeepsRule };

    ghost first = { first_putter };
}

/// The putter stores a date in the cell that comes next.
pub(crate) struct StoreCell;

impl Play<(), View> for StoreCell {
    ghost then = { StoresCell };
}

/// The putter publishes the date that it stored.
pub(crate) struct StoreTail;

impl Play<(), View> for StoreTail {
    ghost then = { StoresTail };
}

/// The putter looks how many tokens were taken.
pub(crate) struct LoadHead;

impl Play<(), View> for LoadHead {
    ghost then = { LoadsHead };
}

/// The taker looks how many tokens were put.
pub(crate) struct LoadTail;

impl Play<(), View> for LoadTail {
    ghost then = { LoadsTail };
}

/// The taker reads the next token.
pub(crate) struct LoadCell;

impl Play<(), View> for LoadCell {
    ghost then = { LoadsCell };
}

/// The taker gives the cell back.
pub(crate) struct StoreHead;

impl Play<(), View> for StoreHead {
    ghost then = { StoresHead };
}

/// The first split of the putter, which makes the taker.
pub(crate) struct Open;

impl Split<View> for Open {
    ghost left = { split_view };

    ghost right = { λ v. first_taker v.room };
}

/// A later split of the putter, or a split of the taker, which leaves a note of what was put or taken.
pub(crate) struct LeaveNote;

impl Split<View> for LeaveNote {
    ghost left = { λ v. v };

    ghost right = { note_of };
}

/// The putter or the taker reads a note.
pub(crate) struct Tell;

impl Join<View> for Tell {
    ghost both = { joined_view };

    ghost spent = { spent_view };
}
