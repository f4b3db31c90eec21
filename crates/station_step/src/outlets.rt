ghost use Rattle.std.specs.List.{list_any};
ghost use Rattle.std.specs.Prelude.{◌≡◌, ◌≢◌, ℕ, ◌<◌, ◌≤◌, ◌++◌, ◌∷◌, [], map, length, slice_index, slice_set, IfSome, IfNone};
ghost use Rattle.line_base.specs.Roomy.{with_date};
ghost use Rattle.station_step.specs.Ends.{outlet_added, bare_outlet, HasRingRoom, HasShelfRoom, HasGot, is_bounded, is_ring, HasSpace, HasNoSpace, HasLooked};
ghost use Rattle.station_step.specs.Kept.{saturating};
ghost use Rattle.station_step.specs.Noted.{outlets_of, delays_of};
ghost use Rattle.station_step.specs.Shelf.{log_on, queue_at, OnlyPuts};
ghost use Rattle.station_step.specs.Station.{outlet_at, PutWithin, NonePuts, ComeFrom};
ghost use Rattle.station_step.specs.Step.{Grows};

use crate::noted::NotedOutlet;
use crate::shelf::Shelf;
use line_base::Date;

/// Looks for space at each output that knows of none. The answer is the first output that has none after that. No
/// output is asked where none of them can lack space.
#[inline]
pub(crate) fn look_all(bounded: bool, outlets: &mut Vec<NotedOutlet>) -> Option<usize>
    requires noted { bounded ≡ list_any is_bounded (outlets_of outlets.old.items) }
    ensures count { length (outlets_of outlets.new.items) ≡
        length (outlets_of outlets.old.items) }
    ensures delays { delays_of outlets.new.items ≡ delays_of outlets.old.items }
    ensures same { map bare_outlet (outlets_of outlets.new.items) ≡ map bare_outlet (outlets_of outlets.old.items) }
    ensures looked { (k : ℕ) → k < length (outlets_of outlets.old.items) →
        HasLooked (outlet_at (outlets_of outlets.old.items) k) (outlet_at (outlets_of outlets.new.items) k) }
    ensures none { IfNone result ((k : ℕ) → k < length (outlets_of outlets.new.items) →
        HasSpace (outlet_at (outlets_of outlets.new.items) k)) }
    ensures there { IfSome result (λ k. k < length (outlets_of outlets.new.items)) }
    ensures full { IfSome result (λ k. HasNoSpace (outlet_at (outlets_of outlets.new.items) k)) }
    ensures first { IfSome result (λ k. (j : ℕ) → j < k →
        HasSpace (outlet_at (outlets_of outlets.new.items) j)) }
{
    if !bounded {
        return None;
    }
    let mut first = None;
    for (k, noted) in outlets.iter_mut().enumerate() {
        if !noted.outlet.look() {
            first = first.or(Some(k));
        }
    }
    first
}

/// Puts a token on every output over a ring, later by its delay. No output is asked where none is over a ring.
#[inline(always)]
fn put_rings(rings: bool, outlets: &mut Vec<NotedOutlet>, date: Date)
    requires noted { rings ≡ list_any is_ring (outlets_of outlets.old.items) }
    requires ring_room { (k : ℕ) → k < length (outlets_of outlets.old.items) →
        HasRingRoom 1 (outlet_at (outlets_of outlets.old.items) k) }
    requires space { (k : ℕ) → k < length (outlets_of outlets.old.items) →
        HasSpace (outlet_at (outlets_of outlets.old.items) k) }
    ensures count { length (outlets_of outlets.new.items) ≡
        length (outlets_of outlets.old.items) }
    ensures delays { delays_of outlets.new.items ≡ delays_of outlets.old.items }
    ensures same { map bare_outlet (outlets_of outlets.new.items) ≡ map bare_outlet (outlets_of outlets.old.items) }
    ensures each { (k : ℕ) → k < length (outlets_of outlets.old.items) →
        HasGot (saturating date (slice_index (delays_of outlets.old.items) k))
        (outlet_at (outlets_of outlets.old.items) k)
        (outlet_at (outlets_of outlets.new.items) k) }
{
    if !rings {
        return;
    }
    for noted in outlets.iter_mut() {
        let later = date.saturating_add(noted.delay);
        noted.outlet.put(later);
    }
}

/// Adds a date to the log of station `i` of the worker, and with that puts a token on every output, later by its delay.
#[inline(always)]
pub(crate) fn put_all(
    rings: bool,
    outlets: &mut Vec<NotedOutlet>,
    shelf: &mut Shelf,
    i: u32,
    date: Date,
)
    requires noted { rings ≡ list_any is_ring (outlets_of outlets.old.items) }
    requires ring_room { (k : ℕ) → k < length (outlets_of outlets.old.items) →
        HasRingRoom 1 (outlet_at (outlets_of outlets.old.items) k) }
    requires shelf_room { (k : ℕ) → k < length (outlets_of outlets.old.items) →
        HasShelfRoom shelf.old.queues (outlet_at (outlets_of outlets.old.items) k) }
    requires space { (k : ℕ) → k < length (outlets_of outlets.old.items) →
        HasSpace (outlet_at (outlets_of outlets.old.items) k) }
    requires within { PutWithin (length shelf.old.queues) (outlets_of outlets.old.items) }
    requires there { i < length shelf.old.logs }
    requires log_room { length (log_on shelf.old.logs i).dates < (log_on shelf.old.logs i).room }
    requires come { ComeFrom i (delays_of outlets.old.items) shelf.old (outlets_of outlets.old.items) }
    ensures count { length (outlets_of outlets.new.items) ≡
        length (outlets_of outlets.old.items) }
    ensures delays { delays_of outlets.new.items ≡ delays_of outlets.old.items }
    ensures same { map bare_outlet (outlets_of outlets.new.items) ≡ map bare_outlet (outlets_of outlets.old.items) }
    ensures each { (k : ℕ) → k < length (outlets_of outlets.old.items) →
        outlet_added shelf.new.queues (outlet_at (outlets_of outlets.new.items) k) ≡
        outlet_added shelf.old.queues (outlet_at (outlets_of outlets.old.items) k) ++
        saturating date (slice_index (delays_of outlets.old.items) k) ∷ [] }
    ensures only_puts { OnlyPuts shelf.old.queues shelf.new.queues }
    ensures grows { Grows shelf.old.queues shelf.new.queues }
    ensures others { (q : ℕ) → NonePuts q (outlets_of outlets.old.items) →
        queue_at shelf.new.queues q ≡ queue_at shelf.old.queues q }
    ensures logs { shelf.new.logs ≡
        slice_set shelf.old.logs i (with_date (log_on shelf.old.logs i) date) }
    ensures sources { shelf.new.sources ≡ shelf.old.sources }
{
    put_rings(rings, outlets, date);
    shelf.add(i, date);
}
