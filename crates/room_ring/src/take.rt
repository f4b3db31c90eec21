ghost use Rattle.std.specs.Prelude.{◌≡◌, ◌+◌, ◌<◌, ◌≤◌, [], ◌∷◌, ◌++◌, length, IfNone, IsSome, option_to_list};
ghost use Rattle.room_ring.specs.Seated.{IsSeated};
ghost use Rattle.room_ring.specs.Take.{RoomTakeEnd, room_known, TakeLooks};
ghost use Rattle.room_ring.specs.View.{IsTaker};

use crate::end::End;
use crate::words::{HEAD, LoadCell, LoadTail, StoreHead, TAIL, cell};
use std::marker::Model;

/// The end of a ring at which tokens are taken. It may move to another thread.
#[derive(Drop)]
pub struct RoomTake {
    pub(crate) end: End,
}

impl Model for RoomTake {
    ghost Value = { RoomTakeEnd };

    ghost view = { λ t. record {
      taken = t.end.seat.me.0.list;
      tail = t.end.seat.me.0.seen;
      loads = t.end.seat.me.0.loads;
      ring = record { table = t.end.seat.table_id; room = t.end.room };
    } };

    ghost invariant = { λ t. record {
      seated : IsSeated t.end;
      taker : IsTaker t.end.room t.end.seat.me.0;
      known : length t.end.seat.me.0.list ≤ t.end.seat.me.0.seen;
      within : t.end.seat.me.0.seen ≤ length t.end.seat.me.0.list + t.end.room;
    } };
}

impl RoomTake {
    /// How many tokens are known to wait. The end that puts never lowers it.
    pub fn known(&self) -> u32
        ensures known { result ≡ room_known self.now }
        ensures most { room_known self.now ≤ self.now.ring.room }
    {
        (self.end.seen - self.end.count) as u32
    }

    /// Looks how many tokens were put, and answers how many are then known to wait.
    pub fn look(&mut self) -> u32
        ensures known { result ≡ room_known self.new }
        ensures looks { TakeLooks self.old self.new }
    {
        let shared = &self.end.words.shared;
        self.end.seen = shared.load::<LoadTail>(&mut self.end.seat, TAIL);
        self.known()
    }

    /// Takes the next token, where one is known.
    fn take_known(&mut self) -> u64
        requires { 0 < room_known self.old }
        ensures { self.new ≡ record self.old { taken = self.old.taken ++ result ∷ [] } }
    {
        let shared = &self.end.words.shared;
        let word = cell(self.end.room, self.end.count);
        let date = shared.load::<LoadCell>(&mut self.end.seat, word);
        self.end.count += 1;
        shared.store::<StoreHead>(&mut self.end.seat, HEAD, self.end.count);
        date
    }

    /// Takes the next token in order of putting. Where none is known it looks once, and `None`
    /// comes only where none is known after that; nothing is taken then. It takes no memory.
    pub fn take(&mut self) -> Option<u64>
        ensures taken { self.new.taken ≡ self.old.taken ++ option_to_list result }
        ensures none { IfNone result (room_known self.new ≡ 0) }
        ensures looked { IfNone result (self.new.loads ≡ self.old.loads + 1) }
        ensures known { 0 < room_known self.old → IsSome result }
        ensures later { self.old.tail ≤ self.new.tail }
        ensures loads { self.old.loads ≤ self.new.loads }
        ensures ring { self.new.ring ≡ self.old.ring }
    {
        if self.known() == 0 && self.look() == 0 {
            return None;
        }
        Some(self.take_known())
    }
}
