ghost use Rattle.std.specs.Prelude.{◌≡◌, ◌+◌, ◌<◌, ◌^◌, ◌↔◌, [], ◌∷◌, ◌++◌, length, IfOk, IsNone, option_to_list};
ghost use Rattle.card_queue.specs.Plain.{plain_tokens, plain_taken, plain_waiting};

use std::alloc::{AllocError, Global};
use std::marker::Model;

/// A queue inside one worker. It keeps every token that it was given, and the number of those taken, so at every moment
/// the tokens that were taken are the first that were put. Its memory is exactly the room that `new` took, at every
/// moment.
#[derive(Drop)]
pub struct Plain {
    tokens: Vec<u64>,
    // How many tokens the queue began with, and how many may be put. Contracts alone read these two.
    initial: usize,
    room: u32,
    takes: usize,
}

impl Model for Plain {
    ghost use Rattle.std.specs.Prelude.{◌-◌, take, drop, vec_capacity};
    ghost use Rattle.card_queue.specs.Plain.{PlainQueue};

    ghost Value = { PlainQueue };

    ghost view = { λ p. record {
      initial = take p.initial p.tokens.items;
      added = drop p.initial p.tokens.items;
      room = p.room;
      takes = p.takes;
    } };

    ghost use Rattle.std.specs.Prelude.{◌≡◌, ◌+◌, ◌≤◌, ◌<◌, ◌^◌, length};

    ghost invariant = { λ p. record {
      began : p.initial ≤ length p.tokens.items;
      within : length p.tokens.items ≤ p.initial + p.room;
      reserved : vec_capacity p.tokens ≡ p.initial + p.room;
      counted : p.initial + p.room < 2 ^ 32;
      taken : p.takes ≤ length p.tokens.items;
    } };
}

impl Plain {
    /// Makes a queue that holds the initial tokens. `put` may be called `room` times on it. Fails only where
    /// memory runs out.
    pub fn new(alloc: Global, initial: &[u64], room: u32) -> Result<Plain, AllocError>
        requires { length initial.now + room < 2 ^ 32 }
        ensures initial { IfOk result (λ plain. plain.initial ≡ initial.now) }
        ensures added { IfOk result (λ plain. plain.added ≡ []) }
        ensures room { IfOk result (λ plain. plain.room ≡ room) }
        ensures takes { IfOk result (λ plain. plain.takes ≡ 0) }
    {
        let mut tokens = Vec::with_capacity(alloc, initial.len() + room as usize)?;
        for token in initial {
            tokens.push_reserved(*token);
        }
        Ok(Plain {
            tokens,
            initial: initial.len(),
            room,
            takes: 0,
        })
    }

    /// Puts a token behind all others. It takes no memory, since `new` took room for it.
    pub fn put(&mut self, date: u64)
        requires { length self.old.added < self.old.room }
        ensures added { self.new ≡ record self.old { added = self.old.added ++ date ∷ [] } }
        ensures taken { plain_taken self.new ≡ plain_taken self.old }
    {
        self.tokens.push_reserved(date);
    }

    /// Takes the front token, or gives `None`, exactly where the queue is empty.
    pub fn take(&mut self) -> Option<u64>
        ensures front { plain_waiting self.old ≡ option_to_list result ++ plain_waiting self.new }
        ensures none { IsNone result ↔ (plain_waiting self.old ≡ []) }
        ensures taken { plain_taken self.new ≡ plain_taken self.old ++ option_to_list result }
        ensures takes { self.new.takes ≡ self.old.takes + length (option_to_list result) }
        ensures same { self.new ≡ record self.old { takes = self.new.takes } }
    {
        let token = self.tokens.get(self.takes).copied()?;
        self.takes += 1;
        Some(token)
    }

    /// How many tokens wait to be taken.
    pub fn len(&self) -> u32
        ensures in_order { plain_taken self.now ++ plain_waiting self.now ≡ plain_tokens self.now }
        ensures waiting { result ≡ length (plain_waiting self.now) }
        ensures rest { self.now.takes + result ≡ length (plain_tokens self.now) }
    {
        (self.tokens.len() - self.takes) as u32
    }
}
