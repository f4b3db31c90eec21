ghost use Rattle.std.specs.Prelude.{◌≡◌, ◌<◌, [], ◌∷◌, ◌++◌, length};

use rtrb::Producer;
use std::marker::Model;

/// The end of a queue at which tokens are put. It may move to another thread.
#[derive(Drop)]
pub struct Put {
    pub(crate) producer: Producer<u64>,
    // How many tokens the queue began with. Contracts alone read it.
    pub(crate) initial: usize,
}

impl Model for Put {
    ghost use Rattle.std.specs.Prelude.{◌-◌, ◌≤◌, take, drop, length};
    ghost use Rattle.card_queue.specs.Put.{PutEnd};
    ghost use Rattle.card_queue.specs.Ring.{ring_of_producer};
    ghost use Rattle.rtrb.specs.Ring.{sent, producer_capacity};

    ghost Value = { PutEnd };

    ghost view = { λ p. record {
      initial = take p.initial (sent p.producer);
      added = drop p.initial (sent p.producer);
      room = producer_capacity p.producer - p.initial;
      ring = ring_of_producer p.producer;
    } };

    ghost invariant = { λ p. p.initial ≤ length (sent p.producer) };
}

impl Put {
    /// Puts a token behind all others. It takes no memory, since room was taken for it when the queue was made.
    pub fn put(&mut self, date: u64)
        requires { length self.old.added < self.old.room }
        ensures { self.new ≡ record self.old { added = self.old.added ++ date ∷ [] } }
    {
        self.producer.push_reserved(date);
    }
}
