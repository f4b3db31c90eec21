ghost use Rattle.std.specs.Prelude.{◌≡◌, ◌<◌, ◌≤◌, if◌then◌else◌, false, length, slice_set};
ghost use Rattle.event_graph.specs.Network.{arc_count, jobs};
ghost use Rattle.what_if.specs.Evaluation.{with_reader, with_readers};
ghost use Rattle.what_if.specs.Page.{IsDate, slot};
ghost use Rattle.what_if.specs.Sheet.{date_count};

use crate::marks::Marks;
use crate::slots::slot;
use live_check::Live;

/// Takes the mark of the date of job `n` at station `t` away, and where that date changed marks those that read it.
pub fn renew_marks(marks: &mut Marks, live: &Live, t: u32, n: u32, changed: bool)
    requires date { IsDate live.now.graph t n }
    requires room { date_count live.now.graph ≤ length marks.old }
    ensures { let rest = slice_set marks.old (slot live.now t n) false in
        marks.new ≡ (if changed then with_readers live.now t n rest else rest) }
{
    marks.remove(slot(live, t, n));
    if changed {
        mark_readers(marks, live, t, n);
    }
}

/// Marks each date with a term that reads the date of job `n` at station `t`.
fn mark_readers(marks: &mut Marks, live: &Live, t: u32, n: u32)
    requires date { IsDate live.now.graph t n }
    requires room { date_count live.now.graph ≤ length marks.old }
    ensures { marks.new ≡ with_readers live.now t n marks.old }
{
    for a in live.graph().outs(t) {
        mark_reader(marks, live, *a, n);
    }
}

/// Marks the date whose term through arc `a` reads the date of job `n` at the arc's start, if there is one.
fn mark_reader(marks: &mut Marks, live: &Live, a: u32, n: u32)
    requires arc { a < arc_count live.now.graph }
    requires from_one { 1 ≤ n }
    requires job { n ≤ jobs live.now.graph }
    requires room { date_count live.now.graph ≤ length marks.old }
    ensures { marks.new ≡ with_reader live.now n marks.old a }
{
    let graph = live.graph();
    let arc = graph.arc(a);
    let job = n + arc.tokens;
    if job <= graph.jobs() {
        marks.insert(slot(live, arc.to, job));
    }
}
