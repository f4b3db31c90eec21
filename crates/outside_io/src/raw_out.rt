//! Standard output as the machine has it: one call of the machine.
ghost use Rattle.std.specs.Prelude.{◌≡◌, ◌≤◌, ◌++◌, ◌∷◌, [], List, length, IfOk};
ghost use Rattle.outside_io.specs.RawOut.{OutCall, out_call};

use crate::noting::note_call;
use line_base::Transcript;
use std::io;
use std::marker::Model;

/// What takes bytes that are printed, one call of the machine a method.
pub trait RawOut {
    /// Every call with its answer, the oldest first.
    ghost asked: { Self → List OutCall };

    /// Hands bytes on, and answers how many of them, from the first on, were taken.
    fn write(&mut self, bytes: &[u8]) -> io::Result<usize>
        ensures recorded { asked self.new ≡ asked self.old ++ out_call bytes.now result ∷ [] }
        ensures bound { IfOk result (λ n. n ≤ length bytes.now) };
}

/// Stands in the type of a transcript for a call, as contracts see it. No value of it is made.
pub struct OutCallName {}

impl Model for OutCallName {
    ghost use Rattle.std.specs.Prelude.{[], None};
    ghost use Rattle.outside_io.specs.RawOut.{OutCall};

    ghost Value = { OutCall };

    ghost view = { λ _. record { bytes = []; taken = None } };
}

/// The calls of standard output with their answers, which only contracts see.
#[derive(Drop)]
pub struct OutCalls {
    calls: Transcript<OutCallName>,
}

impl OutCalls {
    ghost use Rattle.outside_io.specs.Machine.{out_calls};

    /// No call yet.
    pub fn new() -> Self
        ensures { out_calls result ≡ [] }
    {
        OutCalls {
            calls: Transcript::new(),
        }
    }

    /// Notes that bytes were handed on, and hands on the answer.
    pub fn note_write(&mut self, bytes: &[u8], answer: io::Result<usize>) -> io::Result<usize>
        ensures same { result ≡ answer }
        ensures noted { out_calls self.new ≡ out_calls self.old ++ out_call bytes.now result ∷ [] }
    {
        note_call(&mut self.calls, bytes, &[], answer)
    }
}
