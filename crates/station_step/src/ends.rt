ghost use Rattle.std.specs.Prelude.{◌≡◌, ◌≢◌, ℕ, ◌+◌, ◌<◌, ◌≤◌, ◌++◌, ◌∷◌, ◌↔◌, List, [], Some, length, IsTrue, IsSome, IfSome, IfNone, option_to_list};
ghost use Rattle.card_queue.specs.Plain.{PlainQueue};
ghost use Rattle.station_step.specs.Ends.{inlet_taken, inlet_ahead, inlet_looks, bare_inlet, bare_outlet, unseen_inlet, unseen_outlet, inlet_queue, outlet_queue, is_ring_inlet, HasKnown, HasAsked, HasRingRoom, HasGot, is_bounded, is_ring, HasSpace, HasLooked, AreEnds, AreMet, KnowsMore, HasMoreSpace};
ghost use Rattle.station_step.specs.Shelf.{queue_at, OnlyTakes};

use crate::shelf::Shelf;
use card_queue::{Put, Take};
use line_base::Date;
use room_ring::{RoomPut, RoomTake};

/// Where the tokens of an input come from: the end of a ring, that of a ring of bounded room, or the queue with this
/// number on the worker's shelf.
#[derive(Drop)]
pub enum Inlet {
    Ring(Take),
    Room(RoomTake),
    Local(u32),
}

/// Where the tokens of an output go to: the end of a ring, that of a ring of bounded room, or the queue with this
/// number on the worker's shelf, which looks into the station's log.
#[derive(Drop)]
pub enum Outlet {
    Ring(Put),
    Room(RoomPut),
    Local(u32),
}

impl Inlet {
    /// The number of the shelf's queue from which it takes, if it takes from one.
    pub(crate) fn queue(&self) -> Option<u32>
        ensures { result ≡ inlet_queue self.now }
    {
        match self {
            Inlet::Ring(_) | Inlet::Room(_) => None,
            Inlet::Local(k) => Some(*k),
        }
    }

    /// Whether it is the end of a ring.
    pub(crate) fn is_ring(&self) -> bool
        ensures { result ≡ is_ring_inlet self.now }
    {
        !matches!(self, Inlet::Local(_))
    }

    /// Looks for a token where none is known, at the end of a ring. Tells whether one is known then. A queue on the
    /// shelf is not asked.
    #[inline(always)]
    pub(crate) fn look(&mut self) -> bool
        ensures same { unseen_inlet self.new ≡ unseen_inlet self.old }
        ensures more { KnowsMore self.old self.new }
        ensures looks { inlet_looks self.old ≤ inlet_looks self.new }
        ensures known { IsTrue result ↔ HasKnown self.new }
    {
        match self {
            Inlet::Ring(take) => take.known() > 0 || take.look() > 0,
            Inlet::Room(take) => take.known() > 0 || take.look() > 0,
            Inlet::Local(_) => true,
        }
    }

    /// Looks for a token, at the end of a ring or on the shelf, also where one is known. Tells whether one is there.
    #[inline(always)]
    pub(crate) fn has_token(&mut self, shelf: &Shelf) -> bool
        requires { IfSome (inlet_queue self.old) (λ q. q < length shelf.now.queues) }
        ensures same { unseen_inlet self.new ≡ unseen_inlet self.old }
        ensures more { KnowsMore self.old self.new }
        ensures looks { inlet_looks self.old ≤ inlet_looks self.new }
        ensures asked { HasAsked self.old self.new }
        ensures there { IsTrue result ↔ (0 < inlet_ahead shelf.now.queues self.new) }
    {
        match self {
            Inlet::Ring(take) => take.look() > 0,
            Inlet::Room(take) => take.look() > 0,
            Inlet::Local(k) => shelf.waiting(*k) > 0,
        }
    }

    /// Takes the token that is known at the end of a ring. Nothing is taken from a queue on the shelf.
    #[inline(always)]
    pub(crate) fn take_known(&mut self) -> Option<Date>
        requires { HasKnown self.old }
        ensures ring { IsSome result ↔ IsTrue (is_ring_inlet self.old) }
        ensures same { bare_inlet self.new ≡ bare_inlet self.old }
        ensures taken { (shelf : List PlainQueue) →
            inlet_taken shelf self.new ≡ inlet_taken shelf self.old ++ option_to_list result }
        ensures stays { IfNone result (self.new ≡ self.old) }
    {
        match self {
            Inlet::Ring(take) => take.take(),
            Inlet::Room(take) => take.take(),
            Inlet::Local(_) => None,
        }
    }

    /// Takes the next token, if one is there. `None` comes only where none was known, and at the end of a ring only
    /// where this call has looked there.
    #[inline]
    pub(crate) fn take(&mut self, shelf: &mut Shelf) -> Option<Date>
        requires { IfSome (inlet_queue self.old) (λ q. q < length shelf.old.queues) }
        ensures same { bare_inlet self.new ≡ bare_inlet self.old }
        ensures taken { inlet_taken shelf.new.queues self.new ≡ inlet_taken shelf.old.queues self.old ++
            option_to_list result }
        ensures none { IfNone result (inlet_ahead shelf.old.queues self.old ≡ 0) }
        ensures asked { IfNone result (HasAsked self.old self.new) }
        ensures only_takes { OnlyTakes shelf.old.queues shelf.new.queues }
        ensures others { (q : ℕ) → inlet_queue self.old ≢ Some q →
            queue_at shelf.new.queues q ≡ queue_at shelf.old.queues q }
        ensures logs { shelf.new.logs ≡ shelf.old.logs }
        ensures sources { shelf.new.sources ≡ shelf.old.sources }
    {
        match self {
            Inlet::Ring(take) => take.take(),
            Inlet::Room(take) => take.take(),
            Inlet::Local(k) => shelf.take(*k),
        }
    }
}

impl Outlet {
    /// Whether it can lack space, as the end of a ring of bounded room alone can.
    #[inline]
    pub(crate) fn is_bounded(&self) -> bool
        ensures { result ≡ is_bounded self.now }
    {
        matches!(self, Outlet::Room(_))
    }

    /// Whether it is the end of a ring, at which each token is put.
    #[inline]
    pub(crate) fn is_ring(&self) -> bool
        ensures { result ≡ is_ring self.now }
    {
        !matches!(self, Outlet::Local(_))
    }

    /// Looks for space where none is known, which can be of a ring of bounded room alone. Tells whether there is some.
    #[inline]
    pub(crate) fn look(&mut self) -> bool
        ensures looked { HasLooked self.old self.new }
        ensures space { IsTrue result ↔ HasSpace self.new }
    {
        match self {
            Outlet::Ring(_) | Outlet::Local(_) => true,
            Outlet::Room(put) => put.space() > 0 || put.look() > 0,
        }
    }

    /// Puts a token at the end of a ring, behind all others. It takes no memory. At a queue on the shelf there is
    /// nothing to do.
    #[inline]
    pub(crate) fn put(&mut self, date: Date)
        requires ring_room { HasRingRoom 1 self.old }
        requires space { HasSpace self.old }
        ensures same { bare_outlet self.new ≡ bare_outlet self.old }
        ensures got { HasGot date self.old self.new }
    {
        match self {
            Outlet::Ring(put) => put.put(date),
            Outlet::Room(put) => {
                // There is space for it.
                let _ = put.put(date);
            }
            Outlet::Local(_) => {}
        }
    }
}

/// Brings the two ends of one ring together on one thread.
pub(crate) fn meet_ends(outlet: &mut Outlet, inlet: &mut Inlet)
    requires { AreEnds outlet.old inlet.old }
    ensures outlet { unseen_outlet outlet.new ≡ unseen_outlet outlet.old }
    ensures inlet { unseen_inlet inlet.new ≡ unseen_inlet inlet.old }
    ensures space { HasMoreSpace outlet.old outlet.new }
    ensures known { KnowsMore inlet.old inlet.new }
    ensures met { AreMet outlet.new inlet.new }
{
    match (outlet, inlet) {
        (Outlet::Ring(put), Inlet::Ring(take)) => card_queue::meet(put, take),
        (Outlet::Room(put), Inlet::Room(take)) => room_ring::meet(put, take),
        _ => {}
    }
}
