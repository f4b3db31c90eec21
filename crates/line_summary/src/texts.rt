//! The lines of a summary.
ghost use Rattle.std.specs.List.{flat_map};
ghost use Rattle.std.specs.Prelude.{◌<◌, length, slice_index_or};
ghost use Rattle.event_graph.specs.Table.{date_in};
ghost use Rattle.outside_io.specs.Outgoing.{Pushed, stream};
ghost use Rattle.line_summary.specs.Machines.{label_of};
ghost use Rattle.line_summary.specs.Summarized.{IsOfRun};
ghost use Rattle.line_summary.specs.SummaryText.{job_lines, wait_line, percentile_line, at_once_line, backlog_line, parts_line, head_lines, stage_line, machine_line, busiest_line, summary_text};
ghost use Rattle.plant_model.specs.Line.{stage_at, machine_at, no_machine, stage_numbers};

use crate::figures::Figures;
use crate::machines::{MachineUse, busiest};
use crate::percentiles::Percentiles;
use crate::sizes::stage_count;
use crate::stages::stage_sums;
use crate::thousandths::write_ratio;
use crate::waits::most_backlog;
use line_base::Date;
use line_core::Table;
use line_report::{write_number_behind, write_number_line, write_peak_end};
use line_stats::peak;
use outside_io::{Outgoing, Sink};
use plant_model::{LineNumbers, Machine, Plant, bound_of};

/// A finished run of a plant, and what was found of it beforehand: what writing its summary looks at.
#[derive(Drop)]
pub struct SummaryRun {
    pub plant: Plant,
    /// The numbers of its stations.
    pub numbers: LineNumbers,
    pub table: Table,
    pub figures: Figures,
    pub percentiles: Percentiles,
    /// Its machines, in order.
    pub uses: Vec<MachineUse>,
}

/// Writes how many jobs there are, the last date, and the throughput.
fn write_jobs<K: Sink>(out: &mut Outgoing, sink: &mut K, jobs: u32, last: Date)
    ensures { Pushed (stream (K.shown sink.old) out.old)
        (stream (K.shown sink.new) out.new) (job_lines jobs last) }
{
    write_number_line(out, sink, b"jobs", u128::from(jobs));
    write_number_line(out, sink, b"last", u128::from(last));
    write_ratio(
        out,
        sink,
        b"throughput ",
        u128::from(jobs),
        u128::from(last),
    );
    out.push(sink, b"\n");
}

/// Writes the mean wait, the greatest, and the first job that waits that long.
fn write_waits<K: Sink>(out: &mut Outgoing, sink: &mut K, figures: &Figures)
    ensures { Pushed (stream (K.shown sink.old) out.old) (stream (K.shown sink.new) out.new)
        (wait_line figures.now.waited figures.now.jobs figures.now.most figures.now.worst) }
{
    let jobs = u128::from(figures.jobs);
    write_ratio(out, sink, b"wait mean ", figures.waited, jobs);
    write_number_behind(out, sink, b" most ", figures.most);
    write_number_behind(out, sink, b" job ", figures.worst as u64);
    out.push(sink, b"\n");
}

/// Writes the percentiles of the waits.
fn write_percentiles<K: Sink>(out: &mut Outgoing, sink: &mut K, waits: &Percentiles)
    ensures { Pushed (stream (K.shown sink.old) out.old) (stream (K.shown sink.new) out.new)
        (percentile_line waits.now.p50 waits.now.p90 waits.now.p95 waits.now.p99) }
{
    write_number_behind(out, sink, b"wait p50 ", waits.p50);
    write_number_behind(out, sink, b" p90 ", waits.p90);
    write_number_behind(out, sink, b" p95 ", waits.p95);
    write_number_behind(out, sink, b" p99 ", waits.p99);
    out.push(sink, b"\n");
}

/// Writes how many of the jobs don't wait.
fn write_at_once<K: Sink>(out: &mut Outgoing, sink: &mut K, count: u32, jobs: u32)
    ensures { Pushed (stream (K.shown sink.old) out.old)
        (stream (K.shown sink.new) out.new) (at_once_line count jobs) }
{
    write_number_behind(out, sink, b"at once ", count as u64);
    write_number_behind(out, sink, b" of ", jobs as u64);
    out.push(sink, b"\n");
}

/// Writes the mean backlog and the greatest.
fn write_backlog<K: Sink>(out: &mut Outgoing, sink: &mut K, sum: u128, last: Date, most: u32)
    ensures { Pushed (stream (K.shown sink.old) out.old)
        (stream (K.shown sink.new) out.new) (backlog_line sum last most) }
{
    write_ratio(out, sink, b"backlog mean ", sum, u128::from(last));
    write_number_behind(out, sink, b" most ", most as u64);
    out.push(sink, b"\n");
}

/// Writes the mean of all parts in the line.
fn write_parts<K: Sink>(out: &mut Outgoing, sink: &mut K, sum: u128, last: Date)
    ensures { Pushed (stream (K.shown sink.old) out.old)
        (stream (K.shown sink.new) out.new) (parts_line sum last) }
{
    write_ratio(out, sink, b"wip mean ", sum, u128::from(last));
    out.push(sink, b"\n");
}

/// Writes what is said of the jobs. The sum of the waits is that of the backlog over time (Little's law).
fn write_head<K: Sink>(out: &mut Outgoing, sink: &mut K, line: &SummaryRun)
    requires { IsOfRun line.now }
    ensures { Pushed (stream (K.shown sink.old) out.old) (stream (K.shown sink.new) out.new)
        (head_lines line.now.plant (date_in line.now.table.rows)) }
{
    let figures = &line.figures;
    let waits = &line.percentiles;
    let most = most_backlog(&line.plant, &line.numbers, &line.table);
    write_jobs(out, sink, figures.jobs, figures.last);
    write_waits(out, sink, figures);
    write_percentiles(out, sink, waits);
    write_at_once(out, sink, waits.at_once, figures.jobs);
    write_backlog(out, sink, figures.waited, figures.last, most);
    write_parts(out, sink, figures.parts, figures.last);
}

/// Writes the mean parts of a stage in process, on their travel and in stock, and its peak with its bound.
fn write_stage<K: Sink>(out: &mut Outgoing, sink: &mut K, line: &SummaryRun, stage: u32)
    requires line { IsOfRun line.now }
    requires exists { stage < length line.now.plant.stages }
    ensures { Pushed (stream (K.shown sink.old) out.old) (stream (K.shown sink.new) out.new)
        (stage_line line.now.plant (date_in line.now.table.rows) stage) }
{
    let last = line.figures.last;
    let sums = stage_sums(&line.plant, &line.numbers, &line.table, stage, last);
    out.push(sink, b"stage ");
    write_stage_name(out, sink, &line.plant, stage);
    write_ratio(out, sink, b" process ", sums.process, u128::from(last));
    write_ratio(out, sink, b" move ", sums.moving, u128::from(last));
    write_ratio(out, sink, b" stock ", sums.stock, u128::from(last));
    let most = peak(&line.plant, &line.numbers, &line.table, stage);
    write_peak_end(out, sink, b" peak ", most, bound_of(&line.plant, stage));
}

/// Writes the lines of all stages, in order.
fn write_stages<K: Sink>(out: &mut Outgoing, sink: &mut K, line: &SummaryRun)
    requires { IsOfRun line.now }
    ensures { Pushed (stream (K.shown sink.old) out.old) (stream (K.shown sink.new) out.new)
        (flat_map (stage_line line.now.plant (date_in line.now.table.rows)) (stage_numbers line.now.plant)) }
{
    for stage in 0..stage_count(&line.plant) {
        write_stage(out, sink, line, stage);
    }
}

/// Writes the name of a stage.
fn write_stage_name<K: Sink>(out: &mut Outgoing, sink: &mut K, plant: &Plant, stage: u32)
    ensures { Pushed (stream (K.shown sink.old) out.old)
        (stream (K.shown sink.new) out.new) (stage_at plant.now stage).name }
{
    match plant.stages.as_slice().get(stage as usize) {
        Some(part) => out.push(sink, part.name.text()),
        None => {}
    }
}

/// Writes the name of one of a stage's machines.
fn write_name_of<K: Sink>(out: &mut Outgoing, sink: &mut K, machines: &[Machine], machine: u32)
    ensures { Pushed (stream (K.shown sink.old) out.old)
        (stream (K.shown sink.new) out.new) (slice_index_or machines.now machine no_machine).name }
{
    match machines.get(machine as usize) {
        Some(part) => out.push(sink, part.name.text()),
        None => {}
    }
}

/// Writes the name of a machine.
fn write_machine_name<K: Sink>(
    out: &mut Outgoing,
    sink: &mut K,
    plant: &Plant,
    stage: u32,
    machine: u32,
)
    ensures { Pushed (stream (K.shown sink.old) out.old)
        (stream (K.shown sink.new) out.new) (machine_at plant.now stage machine).name }
{
    match plant.stages.as_slice().get(stage as usize) {
        Some(part) => write_name_of(out, sink, part.machines.as_slice(), machine),
        None => {}
    }
}

/// Writes the label of a machine.
fn write_label<K: Sink>(out: &mut Outgoing, sink: &mut K, plant: &Plant, of: &MachineUse)
    ensures { Pushed (stream (K.shown sink.old) out.old)
        (stream (K.shown sink.new) out.new) (label_of plant.now of.now) }
{
    write_stage_name(out, sink, plant, of.stage);
    out.push(sink, b".");
    write_machine_name(out, sink, plant, of.stage, of.machine);
}

/// Writes a machine, its servers, and the share of their time that they work.
fn write_machine<K: Sink>(
    out: &mut Outgoing,
    sink: &mut K,
    plant: &Plant,
    last: Date,
    of: &MachineUse,
)
    ensures { Pushed (stream (K.shown sink.old) out.old)
        (stream (K.shown sink.new) out.new) (machine_line plant.now last of.now) }
{
    out.push(sink, b"machine ");
    write_label(out, sink, plant, of);
    write_number_behind(out, sink, b" servers ", of.servers as u64);
    write_ratio(
        out,
        sink,
        b" busy ",
        u128::from(of.busy),
        u128::from(of.servers) * u128::from(last),
    );
    out.push(sink, b"\n");
}

/// Writes the lines of machines.
fn write_machines<K: Sink>(
    out: &mut Outgoing,
    sink: &mut K,
    plant: &Plant,
    last: Date,
    uses: &[MachineUse],
)
    ensures { Pushed (stream (K.shown sink.old) out.old)
        (stream (K.shown sink.new) out.new) (flat_map (machine_line plant.now last) uses.now) }
{
    for of in uses {
        write_machine(out, sink, plant, last, of);
    }
}

/// Writes the busiest machine.
fn write_busiest<K: Sink>(out: &mut Outgoing, sink: &mut K, line: &SummaryRun)
    requires { IsOfRun line.now }
    ensures { Pushed (stream (K.shown sink.old) out.old)
        (stream (K.shown sink.new) out.new) (busiest_line line.now.plant) }
{
    out.push(sink, b"busiest ");
    write_label(out, sink, &line.plant, &busiest(line.uses.as_slice()));
    out.push(sink, b"\n");
}

/// Writes the whole text of a summary.
pub fn write_text<K: Sink>(out: &mut Outgoing, sink: &mut K, line: &SummaryRun)
    requires { IsOfRun line.now }
    ensures { Pushed (stream (K.shown sink.old) out.old) (stream (K.shown sink.new) out.new)
        (summary_text line.now.plant (date_in line.now.table.rows)) }
{
    write_head(out, sink, line);
    write_stages(out, sink, line);
    write_machines(
        out,
        sink,
        &line.plant,
        line.figures.last,
        line.uses.as_slice(),
    );
    write_busiest(out, sink, line);
}
