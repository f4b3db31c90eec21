ghost use Rattle.std.specs.Prelude.{◌≡◌, ◌++◌, [], replicate, IfOk};
ghost use Rattle.checkpoint.specs.Kept.{AreFirstWordsOfEach, Follows, HaveEachWord, no_words};
ghost use Rattle.checkpoint.specs.Text.{lines_text, station_lines, text};
ghost use Rattle.checkpoint.specs.declared.format.Format.TheVariants.{Differences};
ghost use Rattle.event_graph.specs.State.{State};
ghost use Rattle.line_core.specs.Run.{IsReached};

use crate::kept_log::KeptLog;
use crate::writer::{likely_size, put_head, put_rest, put_station};
use event_graph::Graph;
use line_base::Date;
use line_core::AsState;
use live_check::Live;
use std::alloc::{AllocError, Global};
use std::marker::Model;

/// The texts of the states of a line that goes on, one after the other. The words of the dates that a text had are
/// copied into the next one, so that those of each date are written once; the bytes are those that `write_state` gives.
///
/// Each call that takes a `Live` takes the one that it was made for.
#[derive(Drop)]
pub struct KeptText {
    logs: Vec<KeptLog>,
    // The text that was written last.
    text: Vec<u8>,
    // The dates of the tokens of one place, gathered.
    dates: Vec<Date>,
}

impl Model for KeptText {
    ghost use Rattle.checkpoint.specs.Kept.{Kept};

    ghost Value = { Kept };

    ghost view = { λ k. record { logs = k.logs.items; text = k.text.items } };
}

/// This many logs without words.
fn empty_logs(alloc: Global, count: u32) -> Result<Vec<KeptLog>, AllocError>
    ensures { IfOk result (λ logs. logs.items ≡ replicate count no_words) }
{
    let mut logs = Vec::with_capacity(alloc, count as usize)?;
    for _ in 0..count {
        logs.push_reserved(KeptLog::new(alloc));
    }
    Ok(logs)
}

/// Takes the room that a text of this state, with the dates of all jobs, is likely to need, where there is no text yet.
fn reserve_text<S: AsState>(text: &mut Vec<u8>, graph: &Graph, state: &S) -> Result<(), AllocError>
    requires { (S.run state.now).graph ≡ graph.now }
    ensures { text.new.items ≡ text.old.items }
{
    if text.is_empty() {
        return text.reserve(likely_size(graph, state, graph.jobs() as usize));
    }
    Ok(())
}

/// Writes a line for each station: its label, and its log.
fn put_stations<S: AsState>(
    text: &mut Vec<u8>,
    logs: &mut Vec<KeptLog>,
    graph: &Graph,
    state: &S,
) -> Result<(), AllocError>
    requires made_for { (S.run state.now).graph ≡ graph.now }
    requires follows { AreFirstWordsOfEach graph.now (S.run state.now).state logs.old.items }
    ensures text { IfOk result (λ _. text.new.items ≡ text.old.items
        ++ lines_text Differences (station_lines graph.now) (S.run state.now).state.logs) }
    ensures follows { IfOk result
        (λ _. AreFirstWordsOfEach graph.now (S.run state.now).state logs.new.items) }
    ensures all { IfOk result
        (λ _. HaveEachWord graph.now (S.run state.now).state logs.new.items) }
    ensures reached { IfOk result (λ _. IsReached (S.run state.now)) }
{
    let jobs = graph.jobs() as usize;
    for t in 0..graph.stations() {
        put_station(text, graph, t)?;
        logs[t as usize].put(text, state.log_of(t), jobs)?;
    }
    Ok(())
}

impl KeptText {
    /// No words yet, and an empty text.
    pub fn new(alloc: Global, live: &Live) -> Result<KeptText, AllocError>
        ensures follows { IfOk result (λ kept. (s : State) → Follows live.now.graph s kept) }
        ensures empty { IfOk result (λ kept. kept.text ≡ []) }
    {
        Ok(KeptText {
            logs: empty_logs(alloc, live.graph().stations())?,
            text: Vec::new(alloc),
            dates: Vec::new(alloc),
        })
    }

    /// Writes the text of a state in format 2, in place of the one before. Each log of the state begins with the dates
    /// whose words are here; the words of the others are written and kept.
    ///
    /// The first call takes the room that the words of all jobs, and a text of them, are likely to need. Nothing is known
    /// of the words and of the text where memory ran out.
    pub fn write<S: AsState>(&mut self, live: &Live, state: &S) -> Result<(), AllocError>
        requires made_for { live.now.graph ≡ (S.run state.now).graph }
        requires follows { Follows (S.run state.now).graph (S.run state.now).state self.old }
        ensures text { IfOk result (λ _. self.new.text
            ≡ text Differences (S.run state.now).graph (S.run state.now).state) }
        ensures follows { IfOk result
            (λ _. Follows (S.run state.now).graph (S.run state.now).state self.new) }
        ensures all { IfOk result
            (λ _. HaveEachWord (S.run state.now).graph (S.run state.now).state self.new.logs) }
    {
        let graph = live.graph();
        reserve_text(&mut self.text, graph, state)?;
        self.text.clear();
        put_head(&mut self.text, graph)?;
        put_stations(&mut self.text, &mut self.logs, graph, state)?;
        put_rest(&mut self.text, &mut self.dates, live, state)
    }

    /// The text that was written last.
    pub fn text(&self) -> &[u8]
        ensures { result.now ≡ self.now.text }
    {
        self.text.as_slice()
    }
}
