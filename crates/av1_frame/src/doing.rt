//! What is known of a seat. These types stand in proofs: no value of them is made.
use av1_plane::Pixel;
use av1_tiling::TileContextMut;
use std::collections::LinkedList;

/// The tiles that a seat claimed, those that it found taken, and the claimed one that isn't finished.
pub(crate) struct Knows<X> {
    pub claimed: LinkedList<u64>,
    pub missed: LinkedList<u64>,
    pub held: Option<u64>,
    /// What all seats of one table know alike.
    pub about: X,
}

/// A seat that was joined into another is spent.
pub(crate) enum Doing<X> {
    Spent,
    Live(Knows<X>),
}

/// The views that a table was made with, and its coder.
pub(crate) struct About<T: Pixel, C> {
    pub starts: LinkedList<TileContextMut<T>>,
    pub coder: C,
}
