//! The tokens of a line, beside those that the logs leave on the arc.
ghost use Rattle.std.specs.Prelude.{◌≡◌, ◌^◌, ◌<◌, ◌+◌, ◌++◌, ◌==◌, not, drop, length, slice_index, true, IfOk};
ghost use Rattle.checkpoint.specs.Reading.{Compares, ComparesLine, or_first, TellsDates, TellsPassing, TellsLine};
ghost use Rattle.checkpoint.specs.Text.{place_words};
ghost use Rattle.checkpoint.specs.Given.{AreGiven};
ghost use Rattle.event_graph.specs.Network.{stations, arc_count};
ghost use Rattle.line_base.specs.Roomy.{dates_of};
ghost use Rattle.line_core.specs.Consistent.{tokens_left};
ghost use Rattle.line_core.specs.Parts.{refuse_if};
ghost use Rattle.line_core.specs.declared.error.StateError.TheVariants as Core;

use crate::error::Stop;
use crate::format::Format;
use crate::log::{read_count, read_date};
use crate::reader::Reader;
use event_graph::Graph;
use line_base::{Date, Logs};
use line_core::{StateError, Tokens};

/// The tokens that the logs leave on arc `a`.
fn tokens_left<'a>(graph: &Graph, logs: &'a Logs, a: u32) -> Tokens<'a>
    requires a_log_each { length logs.now.logs ≡ stations graph.now }
    requires given { AreGiven (dates_of logs.now) }
    requires arc { a < arc_count graph.now }
    ensures { result ≡ tokens_left graph.now (dates_of logs.now) a }
{
    let arc = graph.arc(a);
    let taken = logs.get(arc.to).dates().len();
    let made = logs.get(arc.from).dates();
    let initial = arc.tokens as usize;
    let all = initial + made.len();
    Tokens::after_takes(taken.min(all), initial, made, graph.delay(a))
}

/// The date of the next token, and 0 where there is none.
fn next_date(tokens: &mut Tokens) -> Date
    ensures date { result ≡ slice_index tokens.old 0 }
    ensures rest { tokens.new ≡ drop 1 tokens.old }
{
    tokens.next().unwrap_or(0)
}

/// Notes token `k + 1` of arc `a`, where it has another date than is left there and nothing is noted yet.
fn note_token(noted: &mut Option<StateError>, a: u32, k: u32, have: Date, need: Date)
    requires { k < 2 ^ 31 }
    ensures { noted.new
        ≡ or_first noted.old (refuse_if (not (have == need)) (Core.PlaceDate a (k + 1) have need)) }
{
    if noted.is_none() && have != need {
        *noted = Some(StateError::PlaceDate {
            arc: a,
            token: k + 1,
            have,
            need,
        });
    }
}

/// Reads this many dates, each beside the token that is left in its place, and notes the first that is unlike it.
fn compare_dates(
    reader: &mut Reader,
    format: Format,
    a: u32,
    count: u32,
    left: Tokens,
    noted: &mut Option<StateError>,
) -> bool
    requires { count < 2 ^ 31 }
    ensures read { result ≡ true
        → Compares format a count left.entry reader.old.rest reader.new.rest noted.old noted.new }
    ensures tells { TellsDates format count reader.old.rest result reader.new.rest }
    ensures text { reader.new.text ≡ reader.old.text }
{
    let mut tokens = left;
    let mut before = 0;
    for k in 0..count {
        let Some(have) = read_date(reader, format, before) else {
            return false;
        };
        note_token(noted, a, k, have, next_date(&mut tokens));
        before = have;
    }
    true
}

/// Passes over the words with which the line of arc `a` begins.
fn pass_place(reader: &mut Reader, a: u32) -> bool
    ensures passed { result ≡ true → reader.old.rest ≡ place_words a ++ reader.new.rest }
    ensures tells { TellsPassing (place_words a) reader.old.rest result reader.new.rest }
    ensures text { reader.new.text ≡ reader.old.text }
{
    if !reader.pass(b"place ") {
        return false;
    }
    if !reader.pass_number(a) {
        return false;
    }
    reader.pass(b" ")
}

/// Reads the line of arc `a`: how many tokens it has. The first that is unlike what the logs leave there is noted.
pub fn read_place(
    reader: &mut Reader,
    format: Format,
    graph: &Graph,
    logs: &Logs,
    a: u32,
    noted: &mut Option<StateError>,
) -> Result<u32, Stop>
    requires short { length reader.old.rest < 2 ^ 32 }
    requires a_log_each { length logs.now.logs ≡ stations graph.now }
    requires given { AreGiven (dates_of logs.now) }
    requires arc { a < arc_count graph.now }
    ensures read { IfOk result
        (λ count. ComparesLine format a count (tokens_left graph.now (dates_of logs.now) a)
        reader.old.rest reader.new.rest noted.old noted.new) }
    ensures tells { TellsLine format (place_words a) reader.old.rest result }
    ensures text { reader.new.text ≡ reader.old.text }
{
    if !pass_place(reader, a) {
        return Err(Stop::Form);
    }
    let Some(count) = read_count(reader) else {
        return Err(Stop::Form);
    };
    if !compare_dates(reader, format, a, count, tokens_left(graph, logs, a), noted) {
        return Err(Stop::Form);
    }
    if !reader.pass(b"\n") {
        return Err(Stop::Form);
    }
    Ok(count)
}
