ghost use Rattle.std.specs.Prelude.{◌≡◌, ◌<◌, ◌≤◌, ℕ, decimal, codes, Some, IfSome};
ghost use Rattle.event_graph.specs.Network.{jobs, label, stations};
ghost use Rattle.what_if.specs.Edits.{is_machine, machine_with, before_space, Writes, FindsEdit};

use crate::edit::Edit;
use crate::words::split_word;
use event_graph::Graph;
use line_base::{MAX_DEMAND_DATE, MAX_DEMANDS, MAX_TIME, number_of};

/// Whether a worked arc enters station `t`.
fn is_machine(graph: &Graph, t: u32) -> bool
    requires { t < stations graph.now }
    ensures { result ≡ is_machine graph.now t }
{
    let arcs = graph.arcs();
    let ins = graph.ins(t);
    for a in ins {
        if arcs[*a as usize].worked {
            return true;
        }
    }
    false
}

/// The first machine with this label.
fn machine_with(graph: &Graph, text: &[u8]) -> Option<u32>
    ensures found { result ≡ machine_with graph.now text.now }
    ensures exists { IfSome result (λ t. t < stations graph.now) }
    ensures labelled { IfSome result (λ t. label graph.now t ≡ text.now) }
{
    for t in 1..graph.stations() {
        if graph.label(t) == text && is_machine(graph, t) {
            return Some(t);
        }
    }
    None
}

/// The number of a job of the graph.
fn read_job(graph: &Graph, text: &[u8]) -> Option<u32>
    ensures few { jobs graph.now ≤ MAX_DEMANDS }
    ensures read { IfSome result (λ n. text.now ≡ decimal n) }
    ensures from_one { IfSome result (λ n. 1 ≤ n) }
    ensures job { IfSome result (λ n. n ≤ jobs graph.now) }
    ensures tells { (n : ℕ) → 1 ≤ n → n ≤ jobs graph.now → text.now ≡ decimal n → result ≡ Some n }
{
    let n = number_of(text, graph.jobs() as u64)?;
    if n == 0 { None } else { Some(n as u32) }
}

/// The edit that follows the word `time`.
fn read_time(graph: &Graph, text: &[u8]) -> Option<Edit>
    ensures read { IfSome result (Writes graph.now (before_space (codes "time") text.now)) }
    ensures tells { FindsEdit graph.now (before_space (codes "time") text.now) result }
{
    let (label, rest) = split_word(text)?;
    let (job, time) = split_word(rest)?;
    let station = machine_with(graph, label)?;
    let job = read_job(graph, job)?;
    let time = number_of(time, MAX_TIME)?;
    Some(Edit::Time { station, job, time })
}

/// The edit that follows the word `demand`.
fn read_demand(graph: &Graph, text: &[u8]) -> Option<Edit>
    ensures read { IfSome result (Writes graph.now (before_space (codes "demand") text.now)) }
    ensures tells { FindsEdit graph.now (before_space (codes "demand") text.now) result }
{
    let (job, date) = split_word(text)?;
    let job = read_job(graph, job)?;
    let date = number_of(date, MAX_DEMAND_DATE)?;
    Some(Edit::Demand { job, date })
}

/// The edit that a line writes; `None` exactly where it writes none.
pub fn read_edit(graph: &Graph, line: &[u8]) -> Option<Edit>
    ensures read { IfSome result (Writes graph.now line.now) }
    ensures tells { FindsEdit graph.now line.now result }
{
    let (word, rest) = split_word(line)?;
    if word == b"time".as_slice() {
        read_time(graph, rest)
    } else if word == b"demand".as_slice() {
        read_demand(graph, rest)
    } else {
        None
    }
}
