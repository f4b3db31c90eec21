ghost use Rattle.std.specs.Prelude.{◌≡◌, ◌+◌, ◌≤◌, [], ◌++◌, length, IfNone, option_to_list};
ghost use mathlib.Core.List.{IsPrefix};
ghost use Rattle.card_queue.specs.Take.{TakeLooks};

use crate::looks::Looks;
use rtrb::Consumer;
use std::marker::Model;

/// The end of a queue at which tokens are taken. It may move to another thread.
#[derive(Drop)]
pub struct Take {
    pub(crate) consumer: Consumer<u64>,
    pub(crate) looks: Looks,
}

impl Model for Take {
    ghost use Rattle.std.specs.Prelude.{◌<◌, ◌^◌};
    ghost use Rattle.card_queue.specs.Ring.{ring_of_consumer};
    ghost use Rattle.card_queue.specs.Take.{TakeEnd};
    ghost use Rattle.rtrb.specs.Ring.{received, known_items, consumer_capacity};

    ghost Value = { TakeEnd };

    ghost view = { λ t. record {
      taken = received t.consumer;
      known = known_items t.consumer;
      looks = t.looks;
      ring = ring_of_consumer t.consumer;
    } };

    ghost invariant = { λ t. consumer_capacity t.consumer < 2 ^ 32 };
}

impl Take {
    /// Takes the next token in order of putting. Where none is known it looks once, and `None` comes only where none is
    /// known after that; nothing is taken then.
    pub fn take(&mut self) -> Option<u64>
        ensures ring { self.new.ring ≡ self.old.ring }
        ensures taken { self.new.taken ≡ self.old.taken ++ option_to_list result }
        ensures next { IsPrefix self.old.known (option_to_list result ++ self.new.known) }
        ensures none { IfNone result (self.old.known ≡ []) }
        ensures looked { IfNone result (self.new ≡ record self.old { looks = self.old.looks + 1 }) }
        ensures looks { self.old.looks ≤ self.new.looks }
    {
        if self.known() == 0 && self.look() == 0 {
            return None;
        }
        Some(self.consumer.pop_known())
    }

    /// Looks how many tokens were put, and answers how many are then known to wait. Nothing else changes.
    pub fn look(&mut self) -> u32
        ensures known { result ≡ length self.new.known }
        ensures looks { TakeLooks self.old self.new }
    {
        self.looks.count();
        self.consumer.slots() as u32
    }

    /// How many tokens are known to wait. The end that puts never lowers it.
    pub fn known(&self) -> u32
        ensures { result ≡ length self.now.known }
    {
        self.consumer.cached_slots() as u32
    }
}
