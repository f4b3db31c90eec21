use line_base::Items;

/// Whose cards go round a card circuit. Stages and loops are numbered from 0, in the order of the plant.
#[derive(Clone, Copy)]
pub enum CircuitKind {
    /// Those of a stage, under kanban and extended kanban.
    Stage(u32),
    /// Those of the line through a first stage, under CONWIP.
    Conwip(u32),
    /// Those of a loop.
    CardLoop(u32),
}

/// A circuit of the event graph round which cards go, so that its places hold the same number of them in every state
/// (Baccelli, Cohen, Olsder, Quadrat, Synchronization and Linearity, for the invariant).
#[derive(Drop)]
pub struct CardCircuit {
    /// Whose cards they are.
    pub kind: CircuitKind,
    /// The numbers of its arcs, one after the other, from the release that its cards hold back.
    pub arcs: Items<u32>,
    /// How many cards there are.
    pub number: u32,
}
