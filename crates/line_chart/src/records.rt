//! The records of all jobs at all stations.
ghost use Rattle.std.specs.List.{flat_map, range_with_len};
ghost use Rattle.std.specs.Prelude.{◌≡◌, ◌<◌, ◌+◌, ◌^◌, ◌∷◌, [], decimal, length};
ghost use Rattle.event_graph.specs.Network.{stations};
ghost use Rattle.event_graph.specs.Table.{date_in};
ghost use Rattle.line_chart.specs.DateTable.{IsTableRun};
ghost use Rattle.line_chart.specs.Serves.{customer};
ghost use Rattle.line_chart.specs.TableText.{field, csv_record, station_records, machine_records_behind, stage_records, table_text};
ghost use Rattle.outside_io.specs.Outgoing.{Pushed, stream};
ghost use Rattle.plant_model.specs.Line.{stage_numbers};

use crate::starts::start;
use crate::table_run::TableRun;
use event_graph::Graph;
use line_base::Date;
use line_core::Table;
use outside_io::{Outgoing, Sink};
use plant_model::FEED;

/// Writes a number, or nothing.
fn write_field<K: Sink>(out: &mut Outgoing, sink: &mut K, number: Option<u64>)
    ensures { Pushed (stream (K.shown sink.old) out.old)
        (stream (K.shown sink.new) out.new) (field number) }
{
    match number {
        Some(number) => out.push_number(sink, number),
        None => out.push(sink, b""),
    }
}

/// Writes a record: the label of a station, a job, whom its part serves, its start, its date.
fn write_record<K: Sink>(
    out: &mut Outgoing,
    sink: &mut K,
    label: &[u8],
    job: u32,
    serves: Option<u64>,
    start: Option<Date>,
    date: Date,
)
    ensures { Pushed (stream (K.shown sink.old) out.old) (stream (K.shown sink.new) out.new)
        (csv_record (label.now ∷ decimal job ∷ field serves ∷ field start ∷ decimal date ∷ [])) }
{
    out.push(sink, label);
    out.push(sink, b",");
    out.push_number(sink, job as u64);
    out.push(sink, b",");
    write_field(out, sink, serves);
    out.push(sink, b",");
    write_field(out, sink, start);
    out.push(sink, b",");
    out.push_number(sink, date);
    out.push(sink, b"\n");
}

/// The customer of the part of job `n`, where `ahead` parts are ahead of it at the start; `None` where there are fewer
/// jobs.
fn customer(graph: &Graph, ahead: u64, n: u32) -> Option<u64>
    requires { ahead < 2 ^ 63 }
    ensures { result ≡ customer graph.now ahead n }
{
    let customer = n as u64 + ahead;
    if customer <= graph.jobs() as u64 {
        Some(customer)
    } else {
        None
    }
}

/// Writes the records of all jobs at a station, with their starts where it is a machine.
fn write_station<K: Sink>(
    out: &mut Outgoing,
    sink: &mut K,
    graph: &Graph,
    table: &Table,
    ahead: u64,
    machine: bool,
    t: u32,
)
    requires of_graph { table.now.graph ≡ graph.now }
    requires station { t < stations graph.now }
    requires few { ahead < 2 ^ 63 }
    ensures { Pushed (stream (K.shown sink.old) out.old) (stream (K.shown sink.new) out.new)
        (station_records graph.now (date_in table.now.rows) ahead machine t) }
{
    let label = graph.label(t);
    for before in 0..graph.jobs() {
        let job = before + 1;
        let serves = customer(graph, ahead, job);
        let start = if machine {
            Some(start(graph, table, t, job))
        } else {
            None
        };
        write_record(out, sink, label, job, serves, start, table.date(t, job));
    }
}

/// Writes the records of the machines that follow a release, of which there are this many.
fn write_machines<K: Sink>(
    out: &mut Outgoing,
    sink: &mut K,
    graph: &Graph,
    table: &Table,
    ahead: u64,
    release: u32,
    count: u32,
)
    requires of_graph { table.now.graph ≡ graph.now }
    requires stations { release + count < stations graph.now }
    requires small { release + count < 512 }
    requires few { ahead < 2 ^ 63 }
    ensures { Pushed (stream (K.shown sink.old) out.old) (stream (K.shown sink.new) out.new)
        (flat_map (machine_records_behind graph.now (date_in table.now.rows) ahead release) (range_with_len 0 count)) }
{
    for machine in 0..count {
        write_station(out, sink, graph, table, ahead, true, release + 1 + machine);
    }
}

/// Writes the records of a stage: those of its release, and of its machines.
fn write_stage<K: Sink>(out: &mut Outgoing, sink: &mut K, run: &TableRun, stage: u32)
    requires run { IsTableRun run.now }
    requires exists { stage < length run.now.plant.stages }
    ensures { Pushed (stream (K.shown sink.old) out.old) (stream (K.shown sink.new) out.new)
        (stage_records run.now.plant (date_in run.now.table.rows) stage) }
{
    let graph = run.live.graph();
    let ahead = run.stocks[stage as usize];
    let release = run.numbers.release(stage);
    let count = run.numbers.last_machine(stage) - release;
    write_station(out, sink, graph, &run.table, ahead, false, release);
    write_machines(out, sink, graph, &run.table, ahead, release, count);
}

/// Writes the records of all stages, in order.
#[tactic(auto, using(outside_io::proofs::OutgoingLemmas::pushed_none))]
fn write_stages<K: Sink>(out: &mut Outgoing, sink: &mut K, run: &TableRun)
    requires { IsTableRun run.now }
    ensures { Pushed (stream (K.shown sink.old) out.old) (stream (K.shown sink.new) out.new)
        (flat_map (stage_records run.now.plant (date_in run.now.table.rows)) (stage_numbers run.now.plant)) }
{
    for stage in 0..run.plant.stages.len() {
        write_stage(out, sink, run, stage as u32);
    }
}

/// Writes the whole table: the names of the fields, and then the records of the feed, of the stages and of the
/// delivery.
pub fn write_table<K: Sink>(out: &mut Outgoing, sink: &mut K, run: &TableRun)
    requires { IsTableRun run.now }
    ensures { Pushed (stream (K.shown sink.old) out.old) (stream (K.shown sink.new) out.new)
        (table_text run.now.plant (date_in run.now.table.rows)) }
{
    let graph = run.live.graph();
    out.push(sink, b"station,job,serves,start,date\n");
    write_station(out, sink, graph, &run.table, 0, false, FEED);
    write_stages(out, sink, run);
    write_station(
        out,
        sink,
        graph,
        &run.table,
        0,
        false,
        run.numbers.deliver(),
    );
}
