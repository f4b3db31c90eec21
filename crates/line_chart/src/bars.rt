//! The bars of a picture.
ghost use Rattle.std.specs.List.{flat_map};
ghost use Rattle.std.specs.Prelude.{◌≡◌, ◌<◌, ◌≤◌, length};
ghost use Rattle.event_graph.specs.Network.{jobs};
ghost use Rattle.event_graph.specs.Table.{date_in};
ghost use Rattle.outside_io.specs.Outgoing.{Pushed, stream};
ghost use Rattle.line_chart.specs.Bars.{bar, meets, machine_bars, bars};
ghost use Rattle.line_chart.specs.ChartText.{bar_line, bars_text};
ghost use Rattle.line_chart.specs.Machines.{IsMachineOf};
ghost use Rattle.line_chart.specs.Picture.{IsOfRun};

use crate::bar::Bar;
use crate::heights::{LANE_HEIGHT, LANE_UNITS};
use crate::lanes::Lanes;
use crate::run::ChartRun;
use crate::starts::start;
use crate::text::write_interleaved;
use crate::window::Window;
use event_graph::Graph;
use line_base::MAX_TIME;
use line_core::Table;
use outside_io::{Outgoing, Sink};

/// A bar between its numbers.
const BAR: [&[u8]; 8] = [
    b"<rect class=\"c",
    b"\" x=\"",
    b"\" y=\"",
    b"\" width=\"",
    b"\" height=\"8\"><title>job ",
    b", ",
    b" to ",
    b"</title></rect>\n",
];

/// How the field of the bars begins, between its numbers.
const FIELD: [&[u8]; 5] = [
    b"<svg x=\"170\" y=\"40\" width=\"1000\" height=\"",
    b"\" viewBox=\"",
    b" 0 ",
    b" ",
    b"\" preserveAspectRatio=\"none\">\n",
];

/// The bar of a job at a machine.
fn bar(graph: &Graph, table: &Table, machine: Lanes, job: u32) -> Bar
    requires of_graph { table.now.graph ≡ graph.now }
    requires machine { IsMachineOf graph.now machine }
    requires from_one { 1 ≤ job }
    requires job { job ≤ jobs graph.now }
    ensures bar { result ≡ bar graph.now (date_in table.now.rows) machine job }
    ensures early { result.start ≤ 2_002_000_000_000_000 }
    ensures short { result.time ≤ MAX_TIME }
    ensures small { result.lane ≤ 5_130_000 }
{
    Bar {
        station: machine.station,
        job,
        start: start(graph, table, machine.station, job),
        time: graph.time(machine.station, job),
        lane: machine.first + (job - 1) as u64 % machine.count,
    }
}

/// Whether a bar meets the window.
fn meets(window: Window, bar: Bar) -> bool
    requires early { bar.start ≤ 2_002_000_000_000_000 }
    requires short { bar.time ≤ MAX_TIME }
    ensures { result ≡ meets window bar }
{
    bar.start < window.to && window.from < bar.start + bar.time
}

/// How many bars of a machine meet the window.
fn count_bars_of(graph: &Graph, table: &Table, window: Window, machine: Lanes) -> u64
    requires of_graph { table.now.graph ≡ graph.now }
    requires machine { IsMachineOf graph.now machine }
    ensures { result ≡ length (machine_bars graph.now (date_in table.now.rows) window machine) }
{
    let mut count = 0;
    for before in 0..graph.jobs() {
        if meets(window, bar(graph, table, machine, before + 1)) {
            count += 1;
        }
    }
    count
}

/// How many bars meet the window.
pub fn count_bars(run: &ChartRun) -> u64
    requires { IsOfRun run.now }
    ensures count { result ≡ length (bars run.now.plant (date_in run.now.table.rows) run.now.window) }
    ensures few { result ≤ 10_240_000 }
{
    let graph = run.live.graph();
    let mut count = 0;
    for number in 0..run.machines.len() {
        let machine = run.machines[number];
        count += count_bars_of(graph, &run.table, run.window, machine);
    }
    count
}

/// Writes a bar.
fn write_bar<K: Sink>(out: &mut Outgoing, sink: &mut K, bar: Bar)
    requires early { bar.start ≤ 2_002_000_000_000_000 }
    requires short { bar.time ≤ MAX_TIME }
    requires small { bar.lane ≤ 5_130_000 }
    ensures { Pushed (stream (K.shown sink.old) out.old)
        (stream (K.shown sink.new) out.new) (bar_line bar) }
{
    let Bar { start, time, .. } = bar;
    let job = bar.job as u64;
    let numbers = [
        job % 6,
        start,
        LANE_UNITS * bar.lane + 1,
        time,
        job,
        start,
        start + time,
    ];
    write_interleaved(out, sink, &BAR, &numbers);
}

/// Writes the bars of a machine that meet the window.
fn write_bars_of<K: Sink>(
    out: &mut Outgoing,
    sink: &mut K,
    graph: &Graph,
    table: &Table,
    window: Window,
    machine: Lanes,
)
    requires of_graph { table.now.graph ≡ graph.now }
    requires machine { IsMachineOf graph.now machine }
    ensures { Pushed (stream (K.shown sink.old) out.old) (stream (K.shown sink.new) out.new)
        (flat_map bar_line (machine_bars graph.now (date_in table.now.rows) window machine)) }
{
    for before in 0..graph.jobs() {
        let bar = bar(graph, table, machine, before + 1);
        if meets(window, bar) {
            write_bar(out, sink, bar);
        }
    }
}

/// Writes all bars that meet the window.
fn write_all_bars<K: Sink>(out: &mut Outgoing, sink: &mut K, run: &ChartRun)
    requires { IsOfRun run.now }
    ensures { Pushed (stream (K.shown sink.old) out.old) (stream (K.shown sink.new) out.new)
        (flat_map bar_line (bars run.now.plant (date_in run.now.table.rows) run.now.window)) }
{
    let graph = run.live.graph();
    for number in 0..run.machines.len() {
        let machine = run.machines[number];
        write_bars_of(out, sink, graph, &run.table, run.window, machine);
    }
}

/// Writes the field of the bars, and the bars in it.
pub fn write_bars<K: Sink>(out: &mut Outgoing, sink: &mut K, run: &ChartRun)
    requires { IsOfRun run.now }
    ensures { Pushed (stream (K.shown sink.old) out.old) (stream (K.shown sink.new) out.new)
        (bars_text run.now.plant (date_in run.now.table.rows) run.now.window) }
{
    let Window { from, to } = run.window;
    let numbers = [
        LANE_HEIGHT * run.lanes,
        from,
        to - from,
        LANE_UNITS * run.lanes,
    ];
    write_interleaved(out, sink, &FIELD, &numbers);
    write_all_bars(out, sink, run);
    out.push(sink, b"</svg>\n");
}
