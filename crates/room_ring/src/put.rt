ghost use Rattle.std.specs.Prelude.{◌≡◌, ◌+◌, ◌<◌, ◌≤◌, ◌^◌, [], ◌∷◌, ◌++◌, length, take, drop, IsOk, OnOk, OnErr};
ghost use Rattle.room_ring.specs.Put.{RoomPutEnd, room_tokens, room_space, SpaceFills};
ghost use Rattle.room_ring.specs.Seated.{IsSeated};
ghost use Rattle.room_ring.specs.View.{IsPutter};

use crate::end::End;
use crate::words::{HEAD, LoadHead, StoreCell, StoreTail, TAIL, cell};
use std::marker::Model;

/// As many tokens wait as there is room for, as far as was seen.
#[derive(Clone, Copy, Debug, PartialEq, Eq)]
pub struct Full;

/// The end of a ring at which tokens are put. It may move to another thread.
#[derive(Drop)]
pub struct RoomPut {
    pub(crate) end: End,
    // How many tokens the ring began with. Contracts alone read it.
    pub(crate) initial: u32,
}

impl Model for RoomPut {
    ghost Value = { RoomPutEnd };

    ghost view = { λ p. record {
      initial = take p.initial p.end.seat.me.0.list;
      added = drop p.initial p.end.seat.me.0.list;
      head = p.end.seat.me.0.seen;
      loads = p.end.seat.me.0.loads;
      ring = record { table = p.end.seat.table_id; room = p.end.room };
    } };

    ghost invariant = { λ p. record {
      seated : IsSeated p.end;
      putter : IsPutter p.end.seat.me.0;
      within : length p.end.seat.me.0.list ≤ p.end.seat.me.0.seen + p.end.room;
      taken : p.end.seat.me.0.seen ≤ length p.end.seat.me.0.list;
      began : p.initial ≤ length p.end.seat.me.0.list;
    } };
}

impl RoomPut {
    /// How many tokens may be put before the next look. The end that takes never lowers it.
    pub fn space(&self) -> u32
        ensures space { result ≡ room_space self.now }
        ensures fills { SpaceFills self.now }
        ensures most { room_space self.now ≤ self.now.ring.room }
    {
        self.end.room - (self.end.count - self.end.seen) as u32
    }

    /// Looks how many tokens were taken, and answers the space that there is then.
    pub fn look(&mut self) -> u32
        ensures space { result ≡ room_space self.new }
        ensures later { self.old.head ≤ self.new.head }
        ensures counted { self.new.loads ≡ self.old.loads + 1 }
        ensures same { self.new ≡ record self.old { head = self.new.head; loads = self.new.loads } }
    {
        let shared = &self.end.words.shared;
        self.end.seen = shared.load::<LoadHead>(&mut self.end.seat, HEAD);
        self.space()
    }

    /// Counts every token that was put so far among those that the ring began with.
    pub(crate) fn begin(&mut self)
        requires { length (room_tokens self.old) < 2 ^ 32 }
        ensures { self.new ≡ record self.old { initial = room_tokens self.old; added = [] } }
    {
        self.initial = self.end.count as u32;
    }

    /// Puts a token behind all others, where there is space. It takes no memory.
    pub(crate) fn put_within(&mut self, date: u64)
        requires space { 0 < room_space self.old }
        requires most { length self.old.added < 2 ^ 40 }
        ensures { self.new ≡ record self.old { added = self.old.added ++ date ∷ [] } }
    {
        let shared = &self.end.words.shared;
        let word = cell(self.end.room, self.end.count);
        shared.store::<StoreCell>(&mut self.end.seat, word, date);
        self.end.count += 1;
        shared.store::<StoreTail>(&mut self.end.seat, TAIL, self.end.count);
    }

    /// Puts a token behind all others. Where no space is known it looks once, and `Full` comes
    /// only where there is none after that; nothing is put then. It takes no memory.
    pub fn put(&mut self, date: u64) -> Result<(), Full>
        requires { length self.old.added < 2 ^ 40 }
        ensures put { OnOk result (self.new.added ≡ self.old.added ++ date ∷ []) }
        ensures full { OnErr result (room_space self.new ≡ 0) }
        ensures looked { OnErr result (self.new.loads ≡ self.old.loads + 1) }
        ensures unchanged { OnErr result (self.new.added ≡ self.old.added) }
        ensures space { 0 < room_space self.old → IsOk result }
        ensures later { self.old.head ≤ self.new.head }
        ensures loads { self.old.loads ≤ self.new.loads }
        ensures initial { self.new.initial ≡ self.old.initial }
        ensures ring { self.new.ring ≡ self.old.ring }
    {
        if self.space() == 0 && self.look() == 0 {
            return Err(Full);
        }
        self.put_within(date);
        Ok(())
    }
}
