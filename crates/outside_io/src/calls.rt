//! What was asked of a store, and what it answered, for contracts alone.
ghost use Rattle.std.specs.Prelude.{◌≡◌};
ghost use Rattle.outside_io.specs.Calls.{none_asked, after_read, after_write};
ghost use Rattle.outside_io.specs.Noted.{asked_of};

use crate::noting::note_call;
use crate::store::StoreError;
use line_base::Transcript;
use std::marker::Model;

/// Stands in the type of a transcript for a read, as contracts see it. No value of it is made.
pub struct ReadCall {}

impl Model for ReadCall {
    ghost use Rattle.std.specs.Prelude.{[], Ok};
    ghost use Rattle.outside_io.specs.Calls.{Read};

    ghost Value = { Read };

    ghost view = { λ _. record { name = []; answer = Ok [] } };
}

/// Stands in the type of a transcript for a write, as contracts see it. No value of it is made.
pub struct WriteCall {}

impl Model for WriteCall {
    ghost use Rattle.std.specs.Prelude.{[], Ok};
    ghost use Rattle.outside_io.specs.Calls.{Write};

    ghost Value = { Write };

    ghost view = { λ _. record { name = []; bytes = []; answer = Ok tt } };
}

/// The reads and the writes of a store, which only contracts see.
#[derive(Drop)]
pub struct Calls {
    reads: Transcript<ReadCall>,
    writes: Transcript<WriteCall>,
}

impl Calls {
    /// No call yet.
    pub fn new() -> Self
        ensures { asked_of result ≡ none_asked }
    {
        Calls {
            reads: Transcript::new(),
            writes: Transcript::new(),
        }
    }

    /// Notes a read, and hands on its answer.
    pub fn note_read(
        &mut self,
        name: &str,
        answer: Result<Vec<u8>, StoreError>,
    ) -> Result<Vec<u8>, StoreError>
        ensures same { result ≡ answer }
        ensures noted { asked_of self.new ≡ after_read (asked_of self.old) name.now result }
    {
        note_call(&mut self.reads, name.as_bytes(), &[], answer)
    }

    /// Notes a write, and hands on its answer.
    pub fn note_write(
        &mut self,
        name: &str,
        bytes: &[u8],
        answer: Result<(), StoreError>,
    ) -> Result<(), StoreError>
        ensures same { result ≡ answer }
        ensures noted { asked_of self.new ≡ after_write (asked_of self.old) name.now bytes.now result }
    {
        note_call(&mut self.writes, name.as_bytes(), bytes, answer)
    }
}
