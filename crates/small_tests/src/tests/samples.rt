//! The sample plants and graphs of the tests.
ghost use Rattle.std.specs.Prelude.{◌≡◌, ◌≤◌, length, All, IfOk};
ghost use Rattle.event_graph.specs.Limits.{IsWithinLimits};
ghost use Rattle.line_base.specs.declared.limits.TheConstants.{MAX_ARCS, MAX_CARDS, MAX_TIME};

use event_graph::{Arc, Graph, GraphError, Parts};
use line_base::{Items, Label, MAX_ARCS, MAX_CARDS, MAX_TIME, Times};
use std::alloc::{AllocError, Global};
use std::test::Fail;

/// The line of the policy kanban.
pub const KANBAN: &str = "policy = \"kanban\"";

/// The line of the policy base stock.
pub const BASE_STOCK: &str = "policy = \"base-stock\"";

/// The dates of three demands.
pub const THREE_DEMANDS: &str = "0, 2, 4";

/// The dates of forty demands.
pub const FORTY_DEMANDS: &str = "\
  0, 2, 4, 6, 8, 10, 12, 14, 16, 18, 20, 22, 24, 26, 28, 30, 32, 34, 36, 38,
  40, 42, 44, 46, 48, 50, 52, 54, 56, 58, 60, 62, 64, 66, 68, 70, 72, 74, 76, 78";

/// What is said of a stage with one card.
pub const ONE_CARD: &str = "cards = 1";

/// What is said of a stage with one part in stock.
pub const ONE_PART: &str = "stock = 1";

/// The file of a plant of two stages, `cut` with the machine `saw`, and `weld` with the machine `torch`, by the lines
/// of its policy, the dates of its demands, and what else is said of each stage.
pub fn stages_file(
    alloc: Global,
    policy: &str,
    demands: &str,
    cut: &str,
    weld: &str,
) -> Result<String, AllocError> {
    let saw = "[[stage.machine]]\nname = \"saw\"\ntime = 3\n";
    let torch = "[[stage.machine]]\nname = \"torch\"\ntime = 5\n";
    let mut file = format!(in alloc; "{policy}\ndemands = [{demands}]\n")?;
    write!(
        file,
        "[[stage]]\nname = \"cut\"\nfeeds = \"weld\"\n{cut}\n{saw}"
    )?;
    write!(file, "[[stage]]\nname = \"weld\"\n{weld}\n{torch}")?;
    Ok(file)
}

/// An arc that isn't worked.
pub fn plain(from: u32, to: u32, tokens: u32) -> Arc {
    Arc {
        from,
        to,
        tokens,
        worked: false,
    }
}

/// A feed with two demands of date 0 and a station `a` that takes 3 for each job, with these arcs.
fn two_station_parts(alloc: Global, arcs: &[Arc], delays: &[u64]) -> Result<Parts, AllocError>
    requires few { length arcs.now ≤ MAX_ARCS }
    requires tokens { All (λ a. a.tokens ≤ MAX_CARDS) arcs.now }
    requires for_each { length delays.now ≡ length arcs.now }
    requires small { All (λ d. d ≤ MAX_TIME) delays.now }
    ensures { IfOk result IsWithinLimits }
{
    Ok(Parts {
        labels: Items::from_vec(vec![in alloc;
            Label::of(alloc, b"feed")?,
            Label::of(alloc, b"a")?,
        ]?),
        times: Items::from_vec(vec![in alloc; Times::Fixed(0), Times::Fixed(3)]?),
        dates: Items::from_vec(vec![in alloc; 0, 0]?),
        arcs: Items::from_vec(Vec::from_slice(alloc, arcs)?),
        delays: Items::from_vec(Vec::from_slice(alloc, delays)?),
    })
}

/// The graph of the two stations with these arcs, or the fault of its parts. It fails where they are above the limits.
pub fn two_stations(
    alloc: Global,
    arcs: &[Arc],
    delays: &[u64],
) -> Result<Result<Graph, GraphError>, Fail> {
    if arcs.len() > MAX_ARCS as usize || delays.len() != arcs.len() {
        return Err("as many delays as arcs, and few".into());
    }
    if !arcs.iter().all(|arc| arc.tokens <= MAX_CARDS) {
        return Err("too many tokens".into());
    }
    if !delays.iter().all(|delay| *delay <= MAX_TIME) {
        return Err("too long a delay".into());
    }
    Ok(Graph::build(alloc, two_station_parts(alloc, arcs, delays)?))
}
