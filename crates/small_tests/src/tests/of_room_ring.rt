ghost use Rattle.std.specs.Prelude.{◌≡◌, []};

use crate::tests::assert_same::assert_same;
use line_base::Date;
use room_ring::{Full, RoomPut, RoomTake, room_ring};
use std::test::Fail;
use std::thread;

#[test]
fn a_full_ring_refuses_until_a_token_is_taken(rt: HostRuntime) -> Result<(), Fail> {
    let (mut put, mut take) = room_ring(rt.alloc(), &[0], 2)?;
    let space = put.space();
    let (some, full) = (put.put(5), put.put(7));
    let first = take.take();
    let puts = [some, full, put.put(7)];
    let takes = [first, take.take(), take.take(), take.take()];
    let spaces = [space, put.space(), put.look()];
    drop(put);
    drop(take);
    assert_same(&rt, puts, [Ok(()), Err(Full), Ok(())]);
    assert_same(&rt, takes, [Some(0), Some(5), Some(7), None]);
    assert_same(&rt, spaces, [1, 0, 2]);
    Ok(())
}

/// How many dates pass through the ring.
const DATES: u32 = 10_000;

/// How often each thread tries, so that it ends whatever the other thread does.
const TRIES: u32 = 100_000_000;

/// Puts the dates 0, 3, 6, .. and counts them.
fn put_all(mut put: RoomPut) -> u32
    requires { put.added ≡ [] }
{
    let mut given = 0;
    for _ in 0..TRIES {
        if given == DATES {
            break;
        }
        if put.put(3 * u64::from(given)).is_ok() {
            given += 1;
        } else {
            thread::yield_now();
        }
    }
    given
}

/// Takes what there is, and counts those that came as they were put.
fn take_all(mut take: RoomTake) -> u32 {
    let mut taken = 0;
    for _ in 0..TRIES {
        if taken == DATES {
            break;
        }
        match take.take() {
            Some(date) if date == 3 * u64::from(taken) => taken += 1,
            Some(_) => break,
            None => thread::yield_now(),
        }
    }
    taken
}

#[test]
fn two_threads_move_every_date_in_order_through_a_small_ring(rt: HostRuntime) -> Result<(), Fail> {
    let (put, take) = room_ring(rt.alloc(), &[], 3)?;
    let (given, taken) = thread::join(&rt, move || put_all(put), move || take_all(take));
    assert_same(&rt, [given, taken], [DATES; 2]);
    Ok(())
}
