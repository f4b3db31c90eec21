use line_base::Items;

/// The lengths of the places of a graph, one an arc, in the order of the arcs.
pub type Marking = Items<u32>;
