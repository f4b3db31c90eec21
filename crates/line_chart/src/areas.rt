//! The areas of a picture.
ghost use Rattle.std.specs.List.{flat_map};
ghost use Rattle.std.specs.Prelude.{◌≡◌, ◌<◌, ◌≤◌, ◌+◌, ◌*◌, ◌++◌, length, codes};
ghost use Rattle.event_graph.specs.Table.{date_in};
ghost use Rattle.outside_io.specs.Outgoing.{Pushed, stream};
ghost use Rattle.line_chart.specs.Areas.{count_of, most};
ghost use Rattle.line_chart.specs.ChartText.{step_text, path_text, area_head, stage_area, backlog_area};
ghost use Rattle.line_chart.specs.Counts.{IsCountOf};
ghost use Rattle.line_chart.specs.Picture.{IsOfRun, IsWindow};
ghost use Rattle.plant_model.specs.Line.{stage_numbers};

use crate::count::Count;
use crate::dates::{count_at, next_date};
use crate::heights::areas_end;
use crate::run::ChartRun;
use crate::text::{NAME, write_interleaved, write_numbered};
use crate::window::Window;
use outside_io::{Outgoing, Sink};

/// How the element of a path begins: of all that an area counts, and of what is in process or on its way.
const ALL: &[u8] = b"<path class=\"n\" d=\"";

const UNDER_WAY: &[u8] = b"<path class=\"p\" d=\"";

/// The greatest count in the window, at least 1.
fn most(run: &ChartRun, count: Count) -> u64
    requires run { IsOfRun run.now }
    requires exists { IsCountOf run.now.plant count }
    ensures { result ≡ most (count_of run.now.plant (date_in run.now.table.rows) count)
        run.now.window.from run.now.window.to }
{
    let end = run.window.to;
    let mut most = 1;
    let mut date = run.window.from;
    while date < end {
        most = most.max(count_at(run, count, date));
        date = next_date(run, count, date, end);
    }
    most
}

/// Writes a step of a path: the height from a date on.
fn write_step<K: Sink>(out: &mut Outgoing, sink: &mut K, date: u64, height: u64)
    ensures { Pushed (stream (K.shown sink.old) out.old)
        (stream (K.shown sink.new) out.new) (step_text (record { date = date; height = height })) }
{
    write_numbered(out, sink, b" H", date);
    write_numbered(out, sink, b" V", height);
}

/// Writes the path of a count.
fn write_path<K: Sink>(out: &mut Outgoing, sink: &mut K, run: &ChartRun, count: Count)
    requires run { IsOfRun run.now }
    requires exists { IsCountOf run.now.plant count }
    ensures { Pushed (stream (K.shown sink.old) out.old) (stream (K.shown sink.new) out.new)
        (path_text (count_of run.now.plant (date_in run.now.table.rows) count) run.now.window) }
{
    let end = run.window.to;
    let mut height = count_at(run, count, run.window.from);
    write_numbered(out, sink, b"M", run.window.from);
    write_numbered(out, sink, b" 0 V", height);
    let mut date = next_date(run, count, run.window.from, end);
    while date < end {
        let now = count_at(run, count, date);
        if now != height {
            write_step(out, sink, date, now);
        }
        height = now;
        date = next_date(run, count, date, end);
    }
    write_numbered(out, sink, b" H", end);
    out.push(sink, b" V0 Z");
}

/// Writes the path of a count, behind how its element begins.
fn write_path_element<K: Sink>(
    out: &mut Outgoing,
    sink: &mut K,
    run: &ChartRun,
    begin: &[u8],
    count: Count,
)
    requires run { IsOfRun run.now }
    requires exists { IsCountOf run.now.plant count }
    ensures { Pushed (stream (K.shown sink.old) out.old) (stream (K.shown sink.new) out.new)
        (begin.now ++ (path_text (count_of run.now.plant (date_in run.now.table.rows) count) run.now.window
        ++ codes "\"/>")) }
{
    out.push(sink, begin);
    write_path(out, sink, run, count);
    out.push(sink, b"\"/>");
}

/// What stands between the name of an area and its paths, between its numbers.
const FIELD: [&[u8]; 8] = [
    b"</text><text class=\"e\" x=\"164\" y=\"",
    b"\">most ",
    b"</text>\n<svg x=\"170\" y=\"",
    b"\" width=\"1000\" height=\"40\" viewBox=\"",
    b" 0 ",
    b" ",
    b"\" preserveAspectRatio=\"none\"><g transform=\"translate(0 ",
    b") scale(1 -1)\">",
];

/// Writes the name and the greatest count of an area at this height, and how its field begins.
fn write_head<K: Sink>(
    out: &mut Outgoing,
    sink: &mut K,
    name: &[u8],
    y: u64,
    most: u64,
    window: Window,
)
    requires window { IsWindow window }
    requires small { y ≤ 100_000_000 }
    ensures { Pushed (stream (K.shown sink.old) out.old)
        (stream (K.shown sink.new) out.new) (area_head name.now y most window) }
{
    let Window { from, to } = window;
    write_interleaved(out, sink, &NAME, &[y + 16]);
    out.push(sink, name);
    write_interleaved(
        out,
        sink,
        &FIELD,
        &[y + 30, most, y, from, to - from, most, most],
    );
}

/// Writes the area of a stage.
fn write_stage<K: Sink>(out: &mut Outgoing, sink: &mut K, run: &ChartRun, stage: u32)
    requires run { IsOfRun run.now }
    requires exists { stage < length run.now.plant.stages }
    ensures { Pushed (stream (K.shown sink.old) out.old) (stream (K.shown sink.new) out.new)
        (stage_area run.now.plant (date_in run.now.table.rows) run.now.window stage) }
{
    let name = run.plant.stages.as_slice()[stage as usize].name.text();
    let y = areas_end(run, stage as u64);
    write_head(
        out,
        sink,
        name,
        y,
        most(run, Count::Parts(stage)),
        run.window,
    );
    write_path_element(out, sink, run, ALL, Count::Parts(stage));
    write_path_element(out, sink, run, UNDER_WAY, Count::UnderWay(stage));
    out.push(sink, b"</g></svg>\n");
}

/// Writes the areas of all stages, in order.
#[tactic(auto, using(outside_io::proofs::OutgoingLemmas::pushed_none))]
pub fn write_stages<K: Sink>(out: &mut Outgoing, sink: &mut K, run: &ChartRun)
    requires { IsOfRun run.now }
    ensures { Pushed (stream (K.shown sink.old) out.old) (stream (K.shown sink.new) out.new)
        (flat_map (stage_area run.now.plant (date_in run.now.table.rows) run.now.window)
        (stage_numbers run.now.plant)) }
{
    for stage in 0..run.plant.stages.len() {
        write_stage(out, sink, run, stage as u32);
    }
}

/// Writes the area of the backlog.
pub fn write_backlog<K: Sink>(out: &mut Outgoing, sink: &mut K, run: &ChartRun)
    requires { IsOfRun run.now }
    ensures { Pushed (stream (K.shown sink.old) out.old) (stream (K.shown sink.new) out.new)
        (backlog_area run.now.plant (date_in run.now.table.rows) run.now.window) }
{
    let y = areas_end(run, run.plant.stages.len() as u64);
    write_head(
        out,
        sink,
        b"backlog",
        y,
        most(run, Count::Backlog),
        run.window,
    );
    write_path_element(out, sink, run, ALL, Count::Backlog);
    out.push(sink, b"</g></svg>\n");
}
