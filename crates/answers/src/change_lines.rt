//! The lines of the dates that edits change.
ghost use Rattle.std.specs.Prelude.{◌≡◌, ◌≤◌, ◌<◌, ◌^◌};
ghost use Rattle.answers.specs.ChangesText.{lines_of_dates, lines_of_station, change_lines};
ghost use Rattle.answers.specs.Written.{IsWritten};
ghost use Rattle.event_graph.specs.Network.{stations};
ghost use Rattle.outside_io.specs.Outgoing.{stream};

use line_base::Date;
use live_check::Live;
use outside_io::{Outgoing, Sink};
use what_if::Sheet;

/// Writes the line of a job at the station with this label, the date of the table and the present one, where these
/// differ; and answers how many lines that are.
fn write_date<K: Sink>(
    out: &mut Outgoing,
    sink: &mut K,
    label: &[u8],
    job: u32,
    old: Date,
    new: Date,
) -> u64
    ensures written { IsWritten (stream (K.shown sink.old) out.old)
        (stream (K.shown sink.new) out.new) (lines_of_dates label.now job old new) result }
    ensures few { result ≤ 1 }
{
    if old == new {
        return 0;
    }
    out.push(sink, label);
    out.push(sink, b" ");
    out.push_number(sink, job as u64);
    out.push_last_two_numbers(sink, old, new);
    1
}

/// Writes the lines of a station, and answers how many these are.
fn write_station<K: Sink>(
    out: &mut Outgoing,
    sink: &mut K,
    live: &Live,
    sheet: &Sheet,
    t: u32,
) -> u64
    requires made_for { live.now ≡ sheet.now.live }
    requires station { t < stations sheet.now.live.graph }
    ensures written { IsWritten (stream (K.shown sink.old) out.old)
        (stream (K.shown sink.new) out.new) (lines_of_station sheet.now t) result }
    ensures few { result < 2 ^ 32 }
{
    let graph = live.graph();
    let label = graph.label(t);
    let mut count = 0;
    for before in 0..graph.jobs() {
        let job = before + 1;
        let old = sheet.first(t, job);
        let new = sheet.date(t, job);
        count += write_date(out, sink, label, job, old, new);
    }
    count
}

/// Writes the lines of all stations, and answers how many these are.
pub fn write_stations<K: Sink>(out: &mut Outgoing, sink: &mut K, live: &Live, sheet: &Sheet) -> u64
    requires { live.now ≡ sheet.now.live }
    ensures { IsWritten (stream (K.shown sink.old) out.old)
        (stream (K.shown sink.new) out.new) (change_lines sheet.now) result }
{
    let mut count = 0;
    for t in 0..live.graph().stations() {
        count += write_station(out, sink, live, sheet, t);
    }
    count
}
