ghost use Rattle.std.specs.Bool.{OnTrue, OnFalse};
ghost use Rattle.std.specs.Prelude.{◌≡◌, ◌+◌, ◌≤◌, ◌↔◌, IsTrue, Ok, Err, IfErr, OnOk, length};
ghost use Rattle.event_graph.specs.Network.{jobs};
ghost use Rattle.line_core.specs.Schedule.{lines_of};
ghost use Rattle.what_if.specs.Edited.{FitsBetween};
ghost use Rattle.what_if.specs.Edits.{IsEdit, MayFollow, inputs_after, LeadsTo, IsRefused, EditsGive};
ghost use Rattle.what_if.specs.Page.{mark_count};
ghost use Rattle.what_if.specs.Settled.{KeepsDates};

use crate::edit::Edit;
use crate::reader::read_edit;
use crate::sheet::Sheet;
use line_base::Date;
use line_core::{behind, end_before, prefix, without_return};
use live_check::Live;

/// The first line of an edits file that can't be followed, counted from 1.
#[derive(Clone, Copy)]
pub struct RefusedLine {
    /// Which line.
    pub line: u64,
}

/// Whether this demand date of job `n` is neither before the present one of the job before nor after that of the job
/// after.
fn fits_between(sheet: &Sheet, n: u32, date: Date) -> bool
    requires from_one { 1 ≤ n }
    requires job { n ≤ jobs sheet.now.live.graph }
    ensures { IsTrue result ↔ FitsBetween sheet.now.inputs.demands n date }
{
    let jobs = sheet.jobs();
    (n == 1 || sheet.demand(n - 1) <= date) && (n == jobs || date <= sheet.demand(n + 1))
}

/// Follows an edit, where demand dates stay in order, and answers whether it did.
fn follow_edit(sheet: &mut Sheet, live: &Live, edit: Edit) -> bool
    requires made_for { live.now ≡ sheet.old.live }
    requires valid { IsEdit live.now.graph edit }
    ensures may { IsTrue result ↔ MayFollow sheet.old.inputs edit }
    ensures followed { OnTrue result (sheet.new.inputs ≡ inputs_after sheet.old.inputs edit) }
    ensures refused { OnFalse result (sheet.new ≡ sheet.old) }
    ensures dates { KeepsDates sheet.old sheet.new }
    ensures marks { mark_count sheet.new ≤ mark_count sheet.old + 1 }
{
    match edit {
        Edit::Time { station, job, time } => {
            sheet.set_time(live, station, job, time);
            true
        }
        Edit::Demand { job, date } => {
            let fits = fits_between(sheet, job, date);
            if fits {
                sheet.set_demand(live, job, date);
            }
            fits
        }
    }
}

/// Follows one line, where it can be followed, and answers whether it could. An empty line is passed over.
fn follow_line(sheet: &mut Sheet, live: &Live, line: &[u8]) -> bool
    requires made_for { live.now ≡ sheet.old.live }
    ensures followed { OnTrue result
        (LeadsTo live.now.graph line.now sheet.old.inputs sheet.new.inputs) }
    ensures refused { OnFalse result (IsRefused live.now.graph line.now sheet.old.inputs) }
    ensures unchanged { OnFalse result (sheet.new ≡ sheet.old) }
    ensures dates { KeepsDates sheet.old sheet.new }
    ensures marks { mark_count sheet.new ≤ mark_count sheet.old + 1 }
{
    if line.is_empty() {
        return true;
    }
    match read_edit(live.graph(), line) {
        Some(edit) => follow_edit(sheet, live, edit),
        None => false,
    }
}

/// Follows the lines of an edits file on a sheet, in order: `time LABEL JOB TIME` gives a job another time at the
/// machine with this label, `demand JOB DATE` another demand date. Words are separated by single spaces, and numbers
/// have no sign and no leading zero. Each line ends with a line feed, which the last may lack; a carriage return at a
/// line's end is dropped, and an empty line is passed over and counted.
///
/// It stops at the first line that isn't of these forms, or whose demand date is before the present one of the job
/// before or after that of the job after; the lines before it are followed then. No date changes before the sheet is
/// settled. It takes no memory.
pub fn follow_edits(sheet: &mut Sheet, live: &Live, edits: &[u8]) -> Result<(), RefusedLine>
    requires made_for { live.now ≡ sheet.old.live }
    ensures followed { OnOk result
        (EditsGive live.now.graph (lines_of edits.now) 1 sheet.old.inputs (Ok sheet.new.inputs)) }
    ensures refused { IfErr result (λ at. EditsGive live.now.graph (lines_of edits.now) 1 sheet.old.inputs
        (Err (record { line = at.line; left = sheet.new.inputs }))) }
    ensures dates { KeepsDates sheet.old sheet.new }
    ensures marks { mark_count sheet.new ≤ mark_count sheet.old + length (lines_of edits.now) }
{
    let mut rest = edits;
    let mut line = 1;
    loop {
        let end = end_before(rest, b'\n');
        let text = without_return(prefix(rest, end));
        if !follow_line(sheet, live, text) {
            return Err(RefusedLine { line });
        }
        if end == rest.len() {
            return Ok(());
        }
        rest = behind(rest, end + 1);
        line += 1;
    }
}
