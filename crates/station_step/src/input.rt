ghost use Rattle.std.specs.Prelude.{◌≡◌, ◌≢◌, ℕ, ◌<◌, Some, length, IfSome};
ghost use Rattle.station_step.specs.Ends.{inlet_queue};
ghost use Rattle.station_step.specs.Input.{IsRefilled};
ghost use Rattle.station_step.specs.Shelf.{queue_at, OnlyTakes};

use crate::ends::Inlet;
use crate::shelf::Shelf;
use line_base::Date;

/// An input of a station: an inlet, and the hand that it fills.
#[derive(Drop)]
pub(crate) struct Input {
    pub(crate) inlet: Inlet,
    pub(crate) hand: Option<Date>,
}

impl Input {
    /// Takes the next token into an empty hand, if one is there.
    #[inline]
    pub(crate) fn refill(&mut self, shelf: &mut Shelf)
        requires { IfSome (inlet_queue self.old.inlet) (λ q. q < length shelf.old.queues) }
        ensures refilled { IsRefilled shelf.old.queues shelf.new.queues self.old self.new }
        ensures only_takes { OnlyTakes shelf.old.queues shelf.new.queues }
        ensures others { (q : ℕ) → inlet_queue self.old.inlet ≢ Some q →
            queue_at shelf.new.queues q ≡ queue_at shelf.old.queues q }
        ensures logs { shelf.new.logs ≡ shelf.old.logs }
        ensures sources { shelf.new.sources ≡ shelf.old.sources }
    {
        if self.hand.is_none() {
            self.hand = self.inlet.take(shelf);
        }
    }
}
