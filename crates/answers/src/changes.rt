//! What `whatif` writes.
ghost use Rattle.std.specs.Prelude.{◌≡◌, IfOk};
ghost use Rattle.answers.specs.ChangesText.{changes_text};
ghost use Rattle.outside_io.specs.Outgoing.{Pushed, stream};
ghost use Rattle.outside_io.specs.SinkView.{WritesText};

use crate::change_lines::write_stations;
use live_check::Live;
use outside_io::{Failed, Outgoing, Sink};
use std::alloc::{AllocError, Global};
use std::marker::Model;
use what_if::Sheet;

/// The dates that edits change, and the memory for writing them. Contracts see the page of the sheet.
#[derive(Drop)]
pub struct Changes {
    live: Live,
    sheet: Sheet,
    out: Outgoing,
}

impl Model for Changes {
    ghost use Rattle.std.specs.Prelude.{◌≡◌};
    ghost use Rattle.answers.specs.Written.{IsEmptied};
    ghost use Rattle.what_if.specs.Page.{Page};

    ghost Value = { Page };

    ghost view = { λ c. c.sheet };

    ghost invariant = { λ c. (c.live ≡ c.sheet.live) × IsEmptied c.out };
}

/// Writes the whole text: the dates that differ, and how many these are.
fn write_text<K: Sink>(out: &mut Outgoing, sink: &mut K, live: &Live, sheet: &Sheet)
    requires { live.now ≡ sheet.now.live }
    ensures { Pushed (stream (K.shown sink.old) out.old)
        (stream (K.shown sink.new) out.new) (changes_text sheet.now) }
{
    let count = write_stations(out, sink, live, sheet);
    out.push(sink, b"changed ");
    out.push_number(sink, count);
    out.push(sink, b"\n");
}

impl Changes {
    /// The dates of a sheet that differ from those of its table. It takes all memory that writing takes: room for one
    /// piece of the text.
    pub fn new(alloc: Global, live: Live, sheet: Sheet) -> Result<Changes, AllocError>
        requires { live ≡ sheet.live }
        ensures { IfOk result (λ changes. changes ≡ sheet) }
    {
        let Ok(out) = Outgoing::new(alloc) else {
            drop(live);
            drop(sheet);
            return Err(AllocError);
        };
        Ok(Changes { live, sheet, out })
    }

    /// Writes the lines to the sink, from the first on, in pieces of 4,096 bytes and a last one that may be shorter.
    /// After `Failed` a prefix of them was written. It takes no memory.
    pub fn write<K: Sink>(&mut self, sink: &mut K) -> Result<(), Failed>
        ensures puts { WritesText (K.shown sink.old) (K.shown sink.new) (changes_text self.old) result }
        ensures same { self.new ≡ self.old }
    {
        write_text(&mut self.out, sink, &self.live, &self.sheet);
        self.out.finish(sink)
    }
}
