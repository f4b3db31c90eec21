//! The whole picture.
ghost use Rattle.std.specs.Prelude.{◌≤◌};
ghost use Rattle.event_graph.specs.Table.{date_in};
ghost use Rattle.outside_io.specs.Outgoing.{Pushed, stream};
ghost use Rattle.line_chart.specs.ChartText.{head_text, picture};
ghost use Rattle.line_chart.specs.Picture.{IsOfRun};

use crate::areas::{write_backlog, write_stages};
use crate::axis::write_axis;
use crate::bars::write_bars;
use crate::heights::areas_end;
use crate::names::write_names;
use crate::run::ChartRun;
use crate::text::write_interleaved;
use outside_io::{Outgoing, Sink};

/// How a picture begins, on both sides of its height.
const HEAD: [&[u8]; 2] = [
    b"<svg xmlns=\"http://www.w3.org/2000/svg\" width=\"1200\" height=\"",
    b"\" font-family=\"sans-serif\" font-size=\"11\">\n\
    <style>.c0{fill:#4477aa}.c1{fill:#66ccee}.c2{fill:#228833}.c3{fill:#ccbb44}.c4{fill:#ee6677}\
    .c5{fill:#aa3377}.g{stroke:#ccc}.n{fill:#ddd}.p{fill:#999}\
    .e{text-anchor:end}.m{text-anchor:middle}</style>\n\
    <rect width=\"100%\" height=\"100%\" fill=\"white\"/>\n",
];

/// Writes how a picture begins whose areas end there.
fn write_head<K: Sink>(out: &mut Outgoing, sink: &mut K, end: u64)
    requires { end ≤ 100_000_000 }
    ensures { Pushed (stream (K.shown sink.old) out.old)
        (stream (K.shown sink.new) out.new) (head_text end) }
{
    write_interleaved(out, sink, &HEAD, &[end + 30]);
}

/// Writes the whole picture.
pub fn write_picture<K: Sink>(out: &mut Outgoing, sink: &mut K, run: &ChartRun)
    requires { IsOfRun run.now }
    ensures { Pushed (stream (K.shown sink.old) out.old) (stream (K.shown sink.new) out.new)
        (picture run.now.plant (date_in run.now.table.rows) run.now.window) }
{
    let end = areas_end(run, run.plant.stages.len() as u64 + 1);
    write_head(out, sink, end);
    write_axis(out, sink, run.window, end);
    write_names(out, sink, run);
    write_bars(out, sink, run);
    write_stages(out, sink, run);
    write_backlog(out, sink, run);
    out.push(sink, b"</svg>\n");
}
