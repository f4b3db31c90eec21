//! The names of the lanes of a picture.
ghost use Rattle.std.specs.Prelude.{◌<◌};
ghost use Rattle.outside_io.specs.Outgoing.{Pushed, stream};
ghost use Rattle.line_chart.specs.ChartText.{lane_number, lane_lines, names_text};
ghost use Rattle.line_chart.specs.Machines.{IsMachineOf};
ghost use Rattle.line_chart.specs.Picture.{IsOfRun};

use crate::heights::LANE_HEIGHT;
use crate::lanes::Lanes;
use crate::run::ChartRun;
use crate::text::{NAME, write_interleaved, write_numbered};
use event_graph::Graph;
use outside_io::{Outgoing, Sink};

/// The height at which the name of the first lane stands.
const FIRST_NAME: u64 = 52;

/// Writes the number of a lane of a machine, counted from 0 here, where the machine has several.
fn write_lane_number<K: Sink>(out: &mut Outgoing, sink: &mut K, count: u64, lane: u64)
    requires { lane < count }
    ensures { Pushed (stream (K.shown sink.old) out.old)
        (stream (K.shown sink.new) out.new) (lane_number count lane) }
{
    if count > 1 {
        write_numbered(out, sink, b" ", lane + 1);
    }
}

/// Writes the names of the lanes of a machine.
fn write_names_of<K: Sink>(out: &mut Outgoing, sink: &mut K, graph: &Graph, machine: Lanes)
    requires { IsMachineOf graph.now machine }
    ensures { Pushed (stream (K.shown sink.old) out.old)
        (stream (K.shown sink.new) out.new) (lane_lines graph.now machine) }
{
    for lane in 0..machine.count {
        let y = FIRST_NAME + LANE_HEIGHT * (machine.first + lane);
        write_interleaved(out, sink, &NAME, &[y]);
        out.push(sink, graph.label(machine.station));
        write_lane_number(out, sink, machine.count, lane);
        out.push(sink, b"</text>\n");
    }
}

/// Writes the names of all lanes.
pub fn write_names<K: Sink>(out: &mut Outgoing, sink: &mut K, run: &ChartRun)
    requires { IsOfRun run.now }
    ensures { Pushed (stream (K.shown sink.old) out.old)
        (stream (K.shown sink.new) out.new) (names_text run.now.plant) }
{
    let graph = run.live.graph();
    for number in 0..run.machines.len() {
        let machine = run.machines[number];
        write_names_of(out, sink, graph, machine);
    }
}
