ghost use Rattle.std.specs.Prelude.{◌≡◌, ◌≢◌, true, false, ◌++◌, ◌<◌, ◌≤◌, [], codes, length, take, decimal, IfOk};
ghost use Rattle.checkpoint.specs.Text.{date_words, dates_text, delayed_arcs, delays_line, head_lines, two_words, station_words, station_lines, place_lines, place_words, lines_text, text};
ghost use Rattle.checkpoint.specs.declared.format.Format.TheVariants.{Differences};
ghost use Rattle.event_graph.specs.Network.{stations, arc_count};
ghost use Rattle.event_graph.specs.State.{place};
ghost use Rattle.line_core.specs.Run.{IsReached};

use crate::word_room::put_words;
use event_graph::Graph;
use itoa::Buffer;
use line_base::Date;
use line_core::{AsState, Tokens, place_in};
use live_check::Live;
use std::alloc::{AllocError, Global};

/// About how many bytes the line of a station or of an arc takes beside the dates of its log.
const LIKELY_LINE: usize = 128;

/// Writes a number in decimal at the end of a text.
fn put_number(text: &mut Vec<u8>, number: u64) -> Result<(), AllocError>
    ensures { IfOk result (λ _. text.new.items ≡ text.old.items ++ decimal number) }
{
    let mut digits = Buffer::new();
    text.extend_from_slice(digits.format(number).as_bytes())
}

/// Writes words and a number behind them at the end of a text.
fn put_numbered(text: &mut Vec<u8>, words: &[u8], number: u64) -> Result<(), AllocError>
    ensures { IfOk result
        (λ _. text.new.items ≡ text.old.items ++ (words.now ++ decimal number)) }
{
    text.extend_from_slice(words)?;
    put_number(text, number)
}

/// Writes how many dates there are, the dates, and the end of the line. The first dates, this many, have their words in
/// `words` already.
pub fn put_log_behind(
    text: &mut Vec<u8>,
    words: &[u8],
    count: usize,
    dates: &[Date],
) -> Result<(), AllocError>
    requires few { count ≤ length dates.now }
    requires words { words.now ≡ date_words Differences 0 (take count dates.now) }
    ensures { IfOk result
        (λ _. text.new.items ≡ text.old.items ++ dates_text Differences dates.now) }
{
    put_number(text, dates.len() as u64)?;
    text.extend_from_slice(words)?;
    put_words(text, dates, count)?;
    text.extend_from_slice(b"\n")
}

/// Writes how many dates there are, the dates, and the end of the line.
fn put_log(text: &mut Vec<u8>, dates: &[Date]) -> Result<(), AllocError>
    ensures { IfOk result
        (λ _. text.new.items ≡ text.old.items ++ dates_text Differences dates.now) }
{
    put_log_behind(text, b"", 0, dates)
}

/// Puts the dates of tokens into a list, in place of those that were there.
fn gather_dates(dates: &mut Vec<Date>, tokens: Tokens) -> Result<(), AllocError>
    ensures { IfOk result (λ _. dates.new.items ≡ tokens.entry) }
{
    dates.clear();
    for date in tokens {
        dates.push(date)?;
    }
    Ok(())
}

/// Writes how many tokens a place has, their dates, and the end of the line. The dates are gathered in a list first.
fn put_tokens(text: &mut Vec<u8>, dates: &mut Vec<Date>, tokens: Tokens) -> Result<(), AllocError>
    ensures { IfOk result
        (λ _. text.new.items ≡ text.old.items ++ dates_text Differences tokens.entry) }
{
    gather_dates(dates, tokens)?;
    put_log(text, dates.as_slice())
}

/// How many arcs have a delay above 0.
fn count_delayed(graph: &Graph) -> u32
    ensures { result ≡ length (delayed_arcs graph.now) }
{
    let mut count = 0;
    for a in 0..graph.arcs().len() as u32 {
        if graph.delay(a) > 0 {
            count += 1;
        }
    }
    count
}

/// Whether an arc has a delay above 0.
pub fn has_delays(graph: &Graph) -> bool
    ensures some { result ≡ true → delayed_arcs graph.now ≢ [] }
    ensures none { result ≡ false → delayed_arcs graph.now ≡ [] }
{
    count_delayed(graph) > 0
}

/// Writes the line of the delays: how many arcs have one, and each of these with its delay.
pub fn put_delays(text: &mut Vec<u8>, graph: &Graph) -> Result<(), AllocError>
    ensures { IfOk result (λ _. text.new.items ≡ text.old.items ++ delays_line graph.now) }
{
    put_numbered(text, b"delays ", u64::from(count_delayed(graph)))?;
    for a in 0..graph.arcs().len() as u32 {
        let delay = graph.delay(a);
        if delay > 0 {
            put_delay(text, a, delay)?;
        }
    }
    text.extend_from_slice(b"\n")
}

/// Writes the number and the delay of an arc.
fn put_delay(text: &mut Vec<u8>, a: u32, delay: u64) -> Result<(), AllocError>
    ensures { IfOk result (λ _. text.new.items ≡ text.old.items ++ two_words a delay) }
{
    put_numbered(text, b" ", u64::from(a))?;
    put_numbered(text, b" ", delay)
}

/// Writes the first lines: the number of the format, and the delays of the arcs.
pub fn put_head(text: &mut Vec<u8>, graph: &Graph) -> Result<(), AllocError>
    ensures { IfOk result
        (λ _. text.new.items ≡ text.old.items
        ++ lines_text Differences (head_lines Differences graph.now) []) }
{
    text.extend_from_slice(b"pull-checkpoint 2\n")?;
    put_delays(text, graph)
}

/// Writes the words with which the line of station `t` begins.
pub fn put_station(text: &mut Vec<u8>, graph: &Graph, t: u32) -> Result<(), AllocError>
    requires { t < stations graph.now }
    ensures { IfOk result (λ _. text.new.items ≡ text.old.items ++ station_words graph.now t) }
{
    text.extend_from_slice(b"station ")?;
    text.extend_from_slice(graph.label(t))?;
    text.extend_from_slice(b" ")
}

/// Writes a line for each station: its label, and its log.
fn put_stations<S: AsState>(text: &mut Vec<u8>, graph: &Graph, state: &S) -> Result<(), AllocError>
    requires { (S.run state.now).graph ≡ graph.now }
    ensures { IfOk result (λ _. text.new.items ≡ text.old.items
        ++ lines_text Differences (station_lines graph.now) (S.run state.now).state.logs) }
{
    for t in 0..graph.stations() {
        put_station(text, graph, t)?;
        put_log(text, state.log_of(t))?;
    }
    Ok(())
}

/// Writes the line of arc `a`: its number, and its place. The dates are gathered in a list first.
fn put_place<S: AsState>(
    text: &mut Vec<u8>,
    dates: &mut Vec<Date>,
    live: &Live,
    state: &S,
    a: u32,
) -> Result<(), AllocError>
    requires made_for { live.now.graph ≡ (S.run state.now).graph }
    requires arc { a < arc_count (S.run state.now).graph }
    ensures { IfOk result (λ _. text.new.items ≡ text.old.items
        ++ (place_words a ++ dates_text Differences (place (S.run state.now).state a))) }
{
    put_numbered(text, b"place ", u64::from(a))?;
    text.extend_from_slice(b" ")?;
    put_tokens(text, dates, place_in(state, live, a))
}

/// Writes a line for each arc. The dates of a place are gathered in a list first.
fn put_places<S: AsState>(
    text: &mut Vec<u8>,
    dates: &mut Vec<Date>,
    live: &Live,
    state: &S,
) -> Result<(), AllocError>
    requires { live.now.graph ≡ (S.run state.now).graph }
    ensures { IfOk result (λ _. text.new.items ≡ text.old.items
        ++ lines_text Differences (place_lines live.now.graph) (S.run state.now).state.places) }
{
    for a in 0..live.graph().arcs().len() as u32 {
        put_place(text, dates, live, state, a)?;
    }
    Ok(())
}

/// Writes a line for each arc, and the end. The dates of a place are gathered in a list first.
pub fn put_rest<S: AsState>(
    text: &mut Vec<u8>,
    dates: &mut Vec<Date>,
    live: &Live,
    state: &S,
) -> Result<(), AllocError>
    requires { live.now.graph ≡ (S.run state.now).graph }
    ensures { IfOk result (λ _. text.new.items ≡ text.old.items
        ++ (lines_text Differences (place_lines live.now.graph) (S.run state.now).state.places
        ++ codes "end\n")) }
{
    put_places(text, dates, live, state)?;
    text.extend_from_slice(b"end\n")
}

/// About how many bytes the words of this many dates take where they go on as these: for each date the space, as many
/// digits as the mean difference has, and one more.
pub fn likely_words(dates: &[Date], count: usize) -> usize {
    let last = dates.last().copied().unwrap_or(0);
    let mean = last / (dates.len() as u64).max(1);
    let mut digits = Buffer::new();
    digits
        .format(mean)
        .len()
        .saturating_add(2)
        .saturating_mul(count)
}

/// About how many bytes the text of a state takes, once each of its logs has this many dates at least, so that it is
/// seldom moved as it grows.
pub fn likely_size<S: AsState>(graph: &Graph, state: &S, count: usize) -> usize
    requires { (S.run state.now).graph ≡ graph.now }
    ensures reached { IsReached (S.run state.now) }
{
    let lines = graph.arcs().len().saturating_add(graph.stations() as usize);
    let mut size = lines.saturating_mul(LIKELY_LINE);
    for t in 0..graph.stations() {
        let dates = state.log_of(t);
        size = size.saturating_add(likely_words(dates, dates.len().max(count)));
    }
    size
}

/// The text of a state in format 2: the number of the format, the delays of the arcs, the log of each station, the
/// place of each arc, and the end, each on lines of their own. A date that follows another one stands as its difference
/// from that one.
pub fn write_state<S: AsState>(alloc: Global, live: &Live, state: &S) -> Result<Vec<u8>, AllocError>
    requires made_for { live.now.graph ≡ (S.run state.now).graph }
    ensures text { IfOk result
        (λ bytes. bytes.items ≡ text Differences (S.run state.now).graph (S.run state.now).state) }
{
    let graph = live.graph();
    let mut text = Vec::with_capacity(alloc, likely_size(graph, state, 0))?;
    put_head(&mut text, graph)?;
    put_stations(&mut text, graph, state)?;
    put_rest(&mut text, &mut Vec::new(alloc), live, state)?;
    Ok(text)
}
