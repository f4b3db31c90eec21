ghost use Rattle.std.specs.Prelude.{◌≡◌, ◌^◌, ◌<◌, IfOk, IfErr};
ghost use Rattle.event_graph.specs.Table.{date_in};
ghost use Rattle.latest_dates.specs.Found.{IsFound, IsLatestRefusal, text_of};
ghost use Rattle.outside_io.specs.SinkView.{WritesText};

use crate::error::LatestError;
use crate::pass::dates_of;
use crate::run::LatestRun;
use crate::writing::write_latest;
use line_core::Table;
use live_check::Live;
use outside_io::{Failed, Outgoing, Sink};
use std::alloc::Global;
use std::marker::Model;

/// The latest date of each job at each station, and the memory for writing them. Contracts see the graph with the
/// order of its stations, the dates of the run, how long a customer may wait, and the latest dates.
#[derive(Drop)]
pub struct Latest {
    run: LatestRun,
    out: Outgoing,
}

impl Model for Latest {
    ghost use Rattle.latest_dates.specs.Found.{Found, found_of, IsWritable};

    ghost Value = { Found };

    ghost view = { λ latest. found_of latest.run };

    ghost invariant = { λ latest. IsWritable latest.run latest.out };
}

/// How late each job may be at each station, so that every customer waits at most `wait`, over a run of a live graph.
/// The last station is the delivery, where job n may be as late as its demand date and `wait`; elsewhere a job may be
/// as late as the jobs that take its tokens let it. Stations are counted from 0, jobs from 1, dates are in the
/// plant's unit.
///
/// `Late` comes exactly where a job of the run waits longer, and names the first. It takes one pass over all dates,
/// and all memory that writing takes: the latest dates, and room for one piece of the text.
///
/// Source of the rule: Baccelli, Cohen, Olsder and Quadrat, Synchronization and Linearity, backward equations.
pub fn latest_dates(
    alloc: Global,
    live: Live,
    table: Table,
    wait: u64,
) -> Result<Latest, LatestError>
    requires of_graph { table.graph ≡ live.graph }
    requires small { wait < 2 ^ 63 }
    ensures live { IfOk result (λ latest. latest.live ≡ live) }
    ensures run { IfOk result (λ latest. latest.rows ≡ table.rows) }
    ensures wait { IfOk result (λ latest. latest.may ≡ wait) }
    ensures found { IfOk result IsFound }
    ensures refused { IfErr result (IsLatestRefusal live.graph (date_in table.rows) wait) }
{
    match dates_of(alloc, &live, &table, wait) {
        Ok((dates, out)) => Ok(Latest {
            run: LatestRun {
                live,
                table,
                wait,
                dates,
            },
            out,
        }),
        Err(error) => {
            drop(live);
            drop(table);
            Err(error)
        }
    }
}

impl Latest {
    /// Writes the latest dates to the sink, a line for each station but the feed and each job, in order:
    /// `LABEL N LATEST slack S`, with S the time from the run's date to the latest, or `LABEL N none` where nothing
    /// bounds it; then `tight K`, how many have a slack of 0. It goes out in pieces of 4,096 bytes and a last one that
    /// may be shorter. After `Failed` a prefix of it was written. It takes no memory.
    pub fn write<K: Sink>(&mut self, sink: &mut K) -> Result<(), Failed>
        ensures puts { WritesText (K.shown sink.old) (K.shown sink.new) (text_of self.old) result }
        ensures same { self.new ≡ self.old }
        ensures found { IsFound self.old }
    {
        write_latest(&mut self.out, sink, &self.run);
        self.out.finish(sink)
    }
}
