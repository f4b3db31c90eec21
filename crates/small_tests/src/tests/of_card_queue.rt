ghost use Rattle.std.specs.Prelude.{◌+◌, ◌≤◌, length};

use crate::tests::assert_same::assert_same;
use card_queue::{Plain, Put, Take, queue};
use line_base::Date;
use std::test::Fail;
use std::thread;

#[test]
fn a_plain_queue_gives_its_front_token(rt: HostRuntime) -> Result<(), Fail> {
    let mut plain = Plain::new(rt.alloc(), &[0], 2)?;
    let waiting = plain.len();
    let first = plain.take();
    let none = plain.take();
    plain.put(7);
    let given = [Some(Date::from(waiting)), first, none, plain.take()];
    drop(plain);
    assert_same(&rt, given, [Some(1), Some(0), None, Some(7)]);
    Ok(())
}

/// How many dates pass through the queue.
const DATES: u32 = 10_000;

/// Puts the dates 0, 3, 6, ..
fn put_all(mut put: Put)
    requires { length put.added + DATES ≤ put.room }
{
    for n in 0..DATES {
        put.put(3 * Date::from(n));
    }
}

/// Takes what there is, and counts those that came as they were put, of which this many came before. It asks a bounded
/// number of times, so it ends whatever the other thread does.
fn take_some(mut take: Take, before: u32) -> (Take, u32) {
    let mut taken = before;
    for _ in 0..2 * DATES {
        if take.take() == Some(Date::from(taken).saturating_mul(3)) {
            taken = taken.saturating_add(1);
        }
    }
    (take, taken)
}

// What the take finds behind the join no meeting told.
#[test]
fn two_threads_move_every_date_in_order(rt: HostRuntime) -> Result<(), Fail> {
    let (put, take) = queue(rt.alloc(), &[], DATES)?;
    let ((), (take, taken)) = thread::join(&rt, move || put_all(put), move || take_some(take, 0));
    let (take, taken) = take_some(take, taken);
    drop(take);
    assert_same(&rt, taken, DATES);
    Ok(())
}
