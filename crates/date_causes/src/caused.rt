ghost use Rattle.std.specs.Prelude.{◌≡◌, ◌≤◌, IfOk};
ghost use Rattle.date_causes.specs.Caused.{text_of, IsChainOf, HasStation, HasJob};
ghost use Rattle.outside_io.specs.SinkView.{WritesText};
ghost use Rattle.line_stats.specs.PlantDates.{AreOfPlant};

use crate::making::chain_of;
use crate::writing::{Chain, write_chain};
use line_core::Table;
use live_check::Live;
use outside_io::{Failed, Outgoing, Sink};
use plant_model::Plant;
use std::alloc::{AllocError, Global};
use std::marker::Model;

/// The chain of causes of a date of a plant's run, and the memory for writing it. Contracts see the plant and the
/// links.
#[derive(Drop)]
pub struct Causes {
    plant: Plant,
    live: Live,
    chain: Chain,
    out: Outgoing,
}

impl Model for Causes {
    ghost use Rattle.std.specs.Prelude.{◌≡◌, false};
    ghost use Rattle.outside_io.specs.Outgoing.{nothing_waiting};
    ghost use Rattle.date_causes.specs.Caused.{Caused, IsWritable};

    ghost Value = { Caused };

    ghost view = { λ c. record { plant = c.plant; links = c.chain.links } };

    ghost invariant = { λ c. IsWritable c.plant c.live.graph c.chain × (c.out ≡ nothing_waiting false) };
}

impl Causes {
    /// The chain of causes of the date of job `n` at station `t`, in a run of a sound plant with this live graph and
    /// this table. It takes all memory that writing takes: the chain, a number a station, and room for one piece of the
    /// text.
    pub fn new(
        alloc: Global,
        plant: Plant,
        live: Live,
        table: &Table,
        t: u32,
        n: u32,
    ) -> Result<Causes, AllocError>
        requires of_plant { AreOfPlant plant live table.now }
        requires station { HasStation plant t }
        requires from_one { 1 ≤ n }
        requires job { HasJob plant n }
        ensures plant { IfOk result (λ causes. causes.plant ≡ plant) }
        ensures chain { IfOk result (IsChainOf table.now t n) }
    {
        match chain_of(alloc, &plant, &live, table, t, n) {
            Ok((chain, out)) => Ok(Causes {
                plant,
                live,
                chain,
                out,
            }),
            Err(none) => {
                drop(plant);
                drop(live);
                Err(none)
            }
        }
    }

    /// Writes the chain to the sink, from its beginning, a line a date, and then the share of each station that adds
    /// more than 0, in pieces of 4,096 bytes and a last one that may be shorter. After `Failed` a prefix of it was
    /// written. It takes no memory.
    pub fn write<K: Sink>(&mut self, sink: &mut K) -> Result<(), Failed>
        ensures puts { WritesText (K.shown sink.old) (K.shown sink.new) (text_of self.old) result }
        ensures same { self.new ≡ self.old }
    {
        let graph = self.live.graph();
        write_chain(&mut self.out, sink, &self.plant, graph, &self.chain);
        self.out.finish(sink)
    }
}
