ghost use Rattle.std.specs.Prelude.{◌≡◌, ◌^◌, ◌<◌};
ghost use Rattle.what_if.specs.Page.{mark_count};
ghost use Rattle.what_if.specs.Settled.{IsSolved, HasEvaluatedFew, HasEvaluatedEachOnce, KeepsInputs};
ghost use Rattle.what_if.specs.Sheet.{IsSheet};

use crate::sheet::Sheet;
use crate::slots::date_at_slot;
use live_check::Live;

impl Sheet {
    /// Evaluates marked dates, by job and then by the rank of the station, until none is marked. The dates are then the
    /// least solution of the edited graph. It takes no memory.
    ///
    /// Each date is evaluated at most once: dates that read it come after it in this order. So there are no more
    /// evaluations than there were marks, and one for each arc out of the station of each date that changed.
    ///
    /// Source of the rule: Baccelli, Cohen, Olsder and Quadrat, Synchronization and Linearity, evolution equations.
    pub fn settle(&mut self, live: &Live)
        requires made_for { live.now ≡ self.old.live }
        requires few { self.old.evaluations < 2 ^ 59 }
        ensures solved { IsSolved self.new }
        ensures none_marked { mark_count self.new ≡ 0 }
        ensures few { HasEvaluatedFew self.old self.new }
        ensures once_each { HasEvaluatedEachOnce self.old self.new }
        ensures inputs { KeepsInputs self.old self.new }
        ensures kept { IsSheet self.new }
    {
        let mut next = self.first_marked(0);
        while let Some(at) = next {
            let (t, n) = date_at_slot(live, at);
            self.evaluate(live, t, n);
            next = self.first_marked(at + 1);
        }
    }
}
