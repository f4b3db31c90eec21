ghost use Rattle.std.specs.Prelude.{◌≡◌, ◌-◌, ◌≤◌, [], length, drop, is_ok, OnOk, OnErr};
ghost use Rattle.outside_io.specs.RawOut.{AsksOnce, AsksAll, taken_of};
ghost use Rattle.outside_io.specs.SinkView.{Appends, AppendsPrefix};

use crate::raw_out::RawOut;
use crate::sink::{Failed, Sink};

/// Standard output as a sink, over the machine's own call. What was written is what the machine took.
#[derive(Drop)]
pub struct StdSink<O: RawOut + Drop> {
    out: O,
    faults: u64,
}

impl<O: RawOut + Drop> StdSink<O> {
    ghost use Rattle.outside_io.specs.Machine.{std_out};

    /// The machine's own calls as a sink, of which nothing was asked yet.
    pub fn over(out: O) -> Self
        requires nothing_asked { O.asked out ≡ [] }
        ensures out { std_out result ≡ out }
        ensures no_fault { result.faults ≡ 0 }
    {
        StdSink { out, faults: 0 }
    }
}

/// Hands on the bytes behind the first `from`, once, and answers how many the machine took: none where it refused.
fn hand_on_once<O: RawOut>(out: &mut O, piece: &[u8], from: usize) -> usize
    requires { from ≤ length piece.now }
    ensures once { AsksOnce (O.asked out.old) (O.asked out.new) (drop from piece.now) result }
    ensures bound { result ≤ length piece.now - from }
{
    out.write(&piece[from..]).unwrap_or(0)
}

/// Hands a piece on until it was taken whole, or the machine refuses, or takes nothing.
fn hand_on<O: RawOut>(out: &mut O, piece: &[u8]) -> Result<(), Failed>
    ensures asked { AsksAll (O.asked out.old) (O.asked out.new) piece.now (is_ok result) }
    ensures written { OnOk result (Appends (taken_of (O.asked out.old)) (taken_of (O.asked out.new)) piece.now) }
    ensures prefix { OnErr result (AppendsPrefix (taken_of (O.asked out.old)) (taken_of (O.asked out.new)) piece.now) }
{
    let mut taken = 0;
    while taken < piece.len() {
        match hand_on_once(out, piece, taken) {
            0 => return Err(Failed),
            count => taken += count,
        }
    }
    Ok(())
}

impl<O: RawOut + Drop> Sink for StdSink<O> {
    ghost use Rattle.std.specs.Prelude.{◌<◌, ◌≤◌};
    ghost use Rattle.outside_io.specs.Faults.{Rose, RoseByOne};
    ghost use Rattle.outside_io.specs.Machine.{std_out};
    ghost use Rattle.outside_io.specs.RawOut.{std_view};
    ghost use Rattle.outside_io.specs.SinkView.{PutsAll, PutsPrefix};

    ghost shown = { λ sink. std_view (O.asked sink.out) sink.faults };

    fn put(&mut self, piece: &[u8]) -> Result<(), Failed>
        ensures asked { AsksAll (O.asked (std_out self.old)) (O.asked (std_out self.new)) piece.now (is_ok result) }
        ensures appended { OnOk result
            (Appends (taken_of (O.asked (std_out self.old))) (taken_of (O.asked (std_out self.new))) piece.now) }
        ensures prefix { OnErr result
            (AppendsPrefix (taken_of (O.asked (std_out self.old))) (taken_of (O.asked (std_out self.new))) piece.now) }
        ensures cause { OnErr result (Rose self.old.faults self.new.faults) }
        ensures once { OnErr result (RoseByOne self.old.faults self.new.faults) }
        ensures faults_stay { OnOk result (self.new.faults ≡ self.old.faults) }
        ensures faults_stay_or_rise { self.old.faults ≤ self.new.faults }
    {
        let answer = hand_on(&mut self.out, piece);
        if answer.is_err() {
            self.faults = self.faults.saturating_add(1);
        }
        answer
    }
}
