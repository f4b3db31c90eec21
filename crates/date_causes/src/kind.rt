ghost use Rattle.std.specs.Prelude.{◌≡◌, ◌<◌};
ghost use Rattle.date_causes.specs.Caused.{IsOfPlant};
ghost use Rattle.event_graph.specs.Network.{arc_count};
ghost use Rattle.date_causes.specs.Kinds.{kind_at, kind_word};

use event_graph::Graph;
use plant_model::{FEED, LineNumbers, Plant};

/// What an arc of a plant's graph stands for.
#[derive(Clone, Copy)]
pub enum ArcKind {
    /// A part comes from the machine or the stage before.
    Part,
    /// A server of the machine is free.
    Server,
    /// The job before has left the machine.
    Order,
    /// A demand has come.
    Demand,
    /// A card of the stage, or of the line, comes back.
    Card,
    /// A card of a loop comes back.
    Loop,
}

/// The kind of arc `a` of the graph of a plant.
pub fn kind_of(plant: &Plant, numbers: &LineNumbers, graph: &Graph, a: u32) -> ArcKind
    requires of_plant { IsOfPlant plant.now numbers.now graph.now }
    requires arc { a < arc_count graph.now }
    ensures { result ≡ kind_at plant.now a }
{
    let arc = graph.arc(a);
    if arc.from == FEED {
        return ArcKind::Demand;
    }
    if a >= numbers.policy_arc() {
        let loops = plant.loops.len();
        let first_loop = graph.arcs().len() - loops;
        return if (a as usize) < first_loop {
            ArcKind::Card
        } else {
            ArcKind::Loop
        };
    }
    if arc.from != arc.to {
        ArcKind::Part
    } else if arc.worked {
        ArcKind::Server
    } else {
        ArcKind::Order
    }
}

/// The word of a kind.
pub(crate) fn word_of(kind: ArcKind) -> &'static [u8]
    ensures { result.now ≡ kind_word kind }
{
    match kind {
        ArcKind::Part => b"part",
        ArcKind::Server => b"server",
        ArcKind::Order => b"order",
        ArcKind::Demand => b"demand",
        ArcKind::Card => b"card",
        ArcKind::Loop => b"loop",
    }
}
