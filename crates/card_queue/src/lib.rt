//! Queues of dated tokens, first in, first out. What stands for a token is its date. A queue between two workers is one
//! ring, with an end to put and an end to take, each of which may move to a thread of its own. A plain queue stays with
//! one worker.
#![tactic(auto)]

ghost use Rattle.std.specs.Prelude.{◌≡◌, ◌+◌, ◌<◌, ◌^◌, [], length, IfOk};
ghost use Rattle.card_queue.specs.Queue.{IsQueue, IsMet};
ghost use Rattle.card_queue.specs.Take.{TakeLooks};

mod looks;
mod plain;
mod put;
mod take;

use looks::Looks;
pub use plain::Plain;
pub use put::Put;
use rtrb::RingBuffer;
use std::alloc::{AllocError, Global};
pub use take::Take;

/// Makes a queue that has put the initial tokens, taken none and knows all of them. `put` may be called `room` times on
/// it. Fails only where memory runs out.
pub fn queue(alloc: Global, initial: &[u64], room: u32) -> Result<(Put, Take), AllocError>
    requires { length initial.now + room < 2 ^ 32 }
    ensures ends { IfOk result (λ ends. IsQueue ends.0 ends.1) }
    ensures initial { IfOk result (λ ends. ends.0.initial ≡ initial.now) }
    ensures added { IfOk result (λ ends. ends.0.added ≡ []) }
    ensures room { IfOk result (λ ends. ends.0.room ≡ room) }
    ensures taken { IfOk result (λ ends. ends.1.taken ≡ []) }
    ensures known { IfOk result (λ ends. ends.1.known ≡ initial.now) }
    ensures looks { IfOk result (λ ends. ends.1.looks ≡ 0) }
{
    let capacity = initial.len() + room as usize;
    let (mut producer, mut consumer) = RingBuffer::new(alloc, capacity)?;
    // There is room for all of them.
    let _ = producer.push_entire_slice(initial);
    consumer.slots_beside(&mut producer);
    let put = Put {
        producer,
        initial: initial.len(),
    };
    let take = Take {
        consumer,
        looks: Looks::new(),
    };
    Ok((put, take))
}

/// Brings the two ends of one queue together on one thread. What was taken is then a prefix of what was put, the
/// initial tokens first, and all the rest is known. The take end looks once.
pub fn meet(put: &mut Put, take: &mut Take)
    requires { IsQueue put.old take.old }
    ensures put { put.new ≡ put.old }
    ensures take { TakeLooks take.old take.new }
    ensures met { IsMet put.new take.new }
{
    take.looks.count();
    take.consumer.slots_beside(&mut put.producer);
}

/// Each end, and each plain queue, may move to another thread, on its own.
fn queues_may_move(put: Put, take: Take, plain: Plain) {
    take_sent(put);
    take_sent(take);
    take_sent(plain);
}

/// Takes only what may move to another thread.
fn take_sent<T: Send + Drop>(_queue: T) {}
