ghost use Rattle.std.specs.Prelude.{◌≡◌, ◌⊎◌, IfOk, IfErr, OnOk};
ghost use Rattle.event_graph.specs.Live.{IsLive};
ghost use Rattle.line_graph.specs.Labels.{HasLabels};
ghost use Rattle.live_check.specs.DeadCircuit.{IsDeadCircuit};
ghost use Rattle.plant_model.specs.Graph.{graph};
ghost use Rattle.plant_model.specs.Sound.{IsSound};
ghost use Rattle.live_plant.specs.LivePlant.{plant_in, IsLivePlant};
ghost use Rattle.live_plant.specs.Outside.{store_over};
ghost use Rattle.live_plant.specs.LiveSteps.{OfPlantNamed, IsDeadRefusal};
ghost use Rattle.live_plant.specs.Steps.{Makes};

use crate::files::read_plant_files;
use crate::refusals::Refusal;
use event_graph::Graph;
use line_graph::{dead_labels, graph_of};
use live_check::{Live, NotLive, rank};
use outside_io::Store;
use plant_model::Plant;
use std::alloc::Global;

/// A plant that can be run: it is sound, and its graph is live.
#[derive(Drop)]
pub struct LivePlant {
    /// The plant.
    pub plant: Plant,
    /// Its live graph.
    pub live: Live,
}

/// The live plant of a plant file.
pub fn read_live_plant<S: Store>(
    alloc: Global,
    store: &mut S,
    name: &str,
) -> Result<LivePlant, Refusal>
    ensures makes { Makes (store_over S.tells (S.shown store.old) (S.shown store.new))
        (OfPlantNamed S.tells (S.shown store.old).files name.now) (plant_in result) }
    ensures line { IfOk result IsLivePlant }
{
    let plant = read_plant_files(alloc, store, name)?;
    live_plant_of(alloc, plant)
}

/// The live plant of a plant, or the circuit without a token that its graph has.
pub fn live_plant_of(alloc: Global, plant: Plant) -> Result<LivePlant, Refusal>
    requires { IsSound plant }
    ensures plant { IfOk result (λ live. live.plant ≡ plant) }
    ensures line { IfOk result IsLivePlant }
    ensures live { OnOk result (IsLive (graph plant)) }
    ensures dead { IfErr result (λ refusal. IsDeadRefusal (graph plant) refusal ⊎ (refusal ≡ Refusal.NoMemory)) }
{
    match live_graph(alloc, &plant) {
        Ok(live) => Ok(LivePlant { plant, live }),
        Err(refusal) => {
            drop(plant);
            Err(refusal)
        }
    }
}

/// The live graph of a plant, or the circuit without a token that its graph has.
pub fn live_graph(alloc: Global, plant: &Plant) -> Result<Live, Refusal>
    requires { IsSound plant.now }
    ensures graph { IfOk result (λ live. live.graph ≡ graph plant.now) }
    ensures labels { OnOk result (HasLabels (graph plant.now)) }
    ensures live { OnOk result (IsLive (graph plant.now)) }
    ensures dead { IfErr result (λ refusal. IsDeadRefusal (graph plant.now) refusal ⊎ (refusal ≡ Refusal.NoMemory)) }
{
    let Ok(graph) = graph_of(alloc, plant) else {
        return Err(Refusal::NoMemory);
    };
    match rank(alloc, graph) {
        Ok(live) => Ok(live),
        Err(not_live) => {
            let refusal = match &not_live {
                NotLive::Dead { graph, arcs } => dead_refusal(alloc, graph, arcs.as_slice()),
                NotLive::NoMemory { .. } => Refusal::NoMemory,
            };
            drop(not_live);
            Err(refusal)
        }
    }
}

/// What a circuit without a token answers.
fn dead_refusal(alloc: Global, graph: &Graph, arcs: &[u32]) -> Refusal
    requires { IsDeadCircuit graph.now arcs.now }
    ensures { IsDeadRefusal graph.now result ⊎ (result ≡ Refusal.NoMemory) }
{
    match dead_labels(alloc, graph, arcs) {
        Ok(labels) => Refusal::Dead { labels },
        Err(_) => Refusal::NoMemory,
    }
}
