ghost use Rattle.std.specs.Prelude.{◌≡◌, ◌+◌};

use line_base::Transcript;
use std::marker::Model;
use std::snapshot::Snapshot;

/// How often an end looked. Contracts alone read it: it takes no memory, and nothing is counted when the program runs.
#[derive(Drop)]
pub(crate) struct Looks {
    // A mark for each look.
    marks: Snapshot<Transcript<()>>,
}

impl Model for Looks {
    ghost use Rattle.std.specs.Prelude.{ℕ, length};

    ghost Value = { ℕ };

    ghost view = { λ l. length l.marks.value.items };
}

impl Looks {
    /// No look yet.
    pub(crate) fn new() -> Looks
        ensures { result ≡ 0 }
    {
        Looks {
            marks: Snapshot::of(&Transcript::new()),
        }
    }

    /// Counts one look more.
    pub(crate) fn count(&mut self)
        ensures { self.new ≡ self.old + 1 }
    {
        self.marks = Snapshot::of(&Transcript::of(&self.marks));
    }
}
