//! A ring of bounded room between two workers: dated tokens, first in, first out. What stands for a token is its date.
//! Each of its two ends may move to a thread of its own.
#![tactic(auto)]

ghost use Rattle.std.specs.Prelude.{◌≡◌, ◌+◌, ◌<◌, ◌≤◌, [], length, IfOk};
ghost use Rattle.room_ring.specs.Ends.{IsRoomRing, IsInOrder, IsWithinRoom, IsAllKnown, IsAllSpace};
ghost use Rattle.room_ring.specs.Put.{room_tokens, room_space};
ghost use Rattle.room_ring.specs.Ring.{most_room};
ghost use Rattle.room_ring.specs.Take.{room_known, TakeLooks};
ghost use Rattle.room_ring.specs.View.{note_of, joined_view, MayNote, MayHear};

mod end;
mod put;
mod take;
mod view;
mod words;

use atomic_table::Seat;
use end::End;
pub use put::{Full, RoomPut};
use std::alloc::{AllocError, Global};
use std::sync::Arc;
pub use take::RoomTake;
use view::View;
use words::{FIRST_CELL, HEAD, LeaveNote, LoadHead, LoadTail, Open, TAIL, Tell, Words};

/// Makes a ring in which `room` tokens may wait at once. It has put the initial tokens and taken
/// none, its take knows all of them, and its space is the room less their number. Fails only where
/// memory runs out. No other call takes any.
pub fn room_ring(
    alloc: Global,
    initial: &[u64],
    room: u32,
) -> Result<(RoomPut, RoomTake), AllocError>
    requires some_room { 1 ≤ room }
    requires most_room { room ≤ most_room }
    requires fits { length initial.now ≤ room }
    ensures ring { IfOk result (λ ends. IsRoomRing ends.0 ends.1) }
    ensures room { IfOk result (λ ends. ends.0.ring.room ≡ room) }
    ensures initial { IfOk result (λ ends. ends.0.initial ≡ initial.now) }
    ensures added { IfOk result (λ ends. ends.0.added ≡ []) }
    ensures space { IfOk result (λ ends. room_space ends.0 + length initial.now ≡ room) }
    ensures taken { IfOk result (λ ends. ends.1.taken ≡ []) }
    ensures known { IfOk result (λ ends. length initial.now ≤ room_known ends.1) }
{
    let (mut put, mut take) = empty_ring(alloc, room)?;
    for token in initial {
        put.put_within(*token);
    }
    put.begin();
    tell_take(&mut put, &mut take);
    Ok((put, take))
}

/// Makes a ring that has put nothing.
fn empty_ring(alloc: Global, room: u32) -> Result<(RoomPut, RoomTake), AllocError>
    requires some_room { 1 ≤ room }
    requires most_room { room ≤ most_room }
    ensures ring { IfOk result (λ ends. IsRoomRing ends.0 ends.1) }
    ensures room { IfOk result (λ ends. ends.0.ring.room ≡ room) }
    ensures initial { IfOk result (λ ends. ends.0.initial ≡ []) }
    ensures added { IfOk result (λ ends. ends.0.added ≡ []) }
    ensures head { IfOk result (λ ends. ends.0.head ≡ 0) }
    ensures taken { IfOk result (λ ends. ends.1.taken ≡ []) }
{
    let cells = vec![in alloc; 0; room as usize + FIRST_CELL]?;
    let (words, mut seat) = Words::of_words(alloc, &cells, &u64::from(room))?;
    let words = Arc::new(alloc, words)?;
    let others = Arc::try_clone(&words)?;
    let taker = words.shared.split_seat::<Open>(&mut seat);
    let put = End {
        words,
        seat,
        room,
        count: 0,
        seen: 0,
    };
    let take = End {
        words: others,
        seat: taker,
        room,
        count: 0,
        seen: 0,
    };
    Ok((
        RoomPut {
            end: put,
            initial: 0,
        },
        RoomTake { end: take },
    ))
}

/// One seat leaves a note of what it has put or taken, and another reads it.
fn tell(words: &Words, from: &mut Seat<(), View>, to: &mut Seat<(), View>)
    requires some_words { 0 < words.now.shared.table_id.words }
    requires from { from.old.table_id ≡ words.now.shared.table_id }
    requires to { to.old.table_id ≡ words.now.shared.table_id }
    requires may_note { MayNote from.old.me.0 }
    requires may_hear { MayHear to.old.me.0 }
    ensures from_table { from.new.table_id ≡ from.old.table_id }
    ensures to_table { to.new.table_id ≡ to.old.table_id }
    ensures from { from.new.me ≡ from.old.me }
    ensures to { to.new.me ≡ (joined_view to.old.me.0 (note_of from.old.me.0), to.old.me.1) }
{
    let note = words.shared.split_seat::<LeaveNote>(from);
    words.shared.join_seat::<Tell>(to, note);
}

/// The putter tells the taker what it has put, and the taker looks.
fn tell_take(put: &mut RoomPut, take: &mut RoomTake)
    requires { IsRoomRing put.old take.old }
    ensures looks { TakeLooks take.old take.new }
    ensures within { IsWithinRoom put.new take.new }
    ensures known { IsAllKnown put.new take.new }
    ensures put { put.new ≡ put.old }
{
    tell(&take.end.words, &mut put.end.seat, &mut take.end.seat);
    let shared = &take.end.words.shared;
    take.end.seen = shared.load::<LoadTail>(&mut take.end.seat, TAIL);
}

/// Brings the two ends of one ring together on one thread. What was taken is then a prefix of what
/// was put, the initial tokens first, and the rest is within the room. All of the rest is known,
/// and the space is at least the room less the rest. Each end looks once. It takes no memory.
pub fn meet(put: &mut RoomPut, take: &mut RoomTake)
    requires { IsRoomRing put.old take.old }
    ensures put { put.new ≡ record put.old { head = put.new.head; loads = put.new.loads } }
    ensures take { take.new ≡ record take.old { tail = take.new.tail; loads = take.new.loads } }
    ensures later_head { put.old.head ≤ put.new.head }
    ensures later_tail { take.old.tail ≤ take.new.tail }
    ensures head_looked { put.new.loads ≡ put.old.loads + 1 }
    ensures tail_looked { take.new.loads ≡ take.old.loads + 1 }
    ensures in_order { IsInOrder put.new take.new }
    ensures within { IsWithinRoom put.new take.new }
    ensures known { IsAllKnown put.new take.new }
    ensures space { IsAllSpace put.new take.new }
{
    // The taker tells the putter what it has taken, and the putter looks.
    tell(&put.end.words, &mut take.end.seat, &mut put.end.seat);
    let shared = &put.end.words.shared;
    put.end.seen = shared.load::<LoadHead>(&mut put.end.seat, HEAD);
    tell_take(put, take);
}

/// Each end may move to another thread, on its own.
fn ends_may_move(put: RoomPut, take: RoomTake) {
    take_sent(put);
    take_sent(take);
}

/// Takes only what may move to another thread.
fn take_sent<T: Send + Drop>(_end: T) {}
