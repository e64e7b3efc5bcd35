//! The disks of nodes, two for each.

/// The two disks of a node.
#[derive(Drop)]
pub struct Pair<D> {
    pub first: D,
    pub second: D,
}

/// A pair for each node, at its position in the registry.
#[derive(Drop)]
pub struct Bench<D> {
    pub pairs: Vec<Pair<D>>,
}

/// Pairs that aren't made to stop, at the same positions.
#[derive(Drop)]
pub struct Shelf<E> {
    pub pairs: Vec<Pair<E>>,
}
