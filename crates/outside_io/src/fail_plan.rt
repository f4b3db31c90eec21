ghost use Rattle.std.specs.Prelude.{◌↔◌, IsTrue};

/// Which calls of a store or a sink in memory are to fail, by their numbers from 1.
#[derive(Drop)]
pub struct FailPlan {
    failing: Vec<u32>,
    calls: u64,
}

impl FailPlan {
    ghost use Rattle.outside_io.specs.FailPlans.{IsNewPlan, IsDue, Counts};

    /// A plan in which the calls of these numbers are to fail.
    pub fn new(failing: Vec<u32>) -> FailPlan
        ensures { IsNewPlan result failing.items }
    {
        FailPlan { failing, calls: 0 }
    }

    /// Counts a call, and says whether it is to fail.
    pub fn next(&mut self) -> bool
        ensures due { IsTrue result ↔ IsDue self.old }
        ensures counted { Counts self.old self.new }
    {
        self.calls = self.calls.saturating_add(1);
        let number = self.calls;
        self.failing.iter().any(|n| u64::from(*n) == number)
    }
}
