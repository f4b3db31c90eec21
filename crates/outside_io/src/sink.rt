ghost use Rattle.std.specs.Prelude.{◌≡◌, ◌<◌, ◌≤◌, length, OnOk, OnErr};
ghost use Rattle.outside_io.specs.Faults.{Rose, RoseByOne};
ghost use Rattle.outside_io.specs.SinkView.{SinkView, PutsAll, PutsPrefix};

/// The most bytes that a sink takes at once.
pub const MAX_PIECE: usize = 4_096;

/// The sink refused a piece; its count of faults rose.
#[derive(Clone, Copy, Debug, PartialEq, Eq)]
pub struct Failed;

/// Where bytes go that are printed, one piece after another.
pub trait Sink {
    /// What was written, and how many pieces were refused. Over standard output what was written is what the machine
    /// took.
    ghost shown: { Self → SinkView };

    /// Appends a piece of 1 to 4,096 bytes, or after `Failed` a prefix of it. It takes no memory.
    fn put(&mut self, piece: &[u8]) -> Result<(), Failed>
        requires some { 0 < length piece.now }
        requires short { length piece.now ≤ MAX_PIECE }
        ensures appended { OnOk result (PutsAll (shown self.old) (shown self.new) piece.now) }
        ensures prefix { OnErr result (PutsPrefix (shown self.old) (shown self.new) piece.now) }
        ensures cause { OnErr result (Rose (shown self.old).faults (shown self.new).faults) }
        ensures once { OnErr result (RoseByOne (shown self.old).faults (shown self.new).faults) }
        ensures faults_stay { OnOk result ((shown self.new).faults ≡ (shown self.old).faults) }
        ensures faults_stay_or_rise { (shown self.old).faults ≤ (shown self.new).faults };
}
