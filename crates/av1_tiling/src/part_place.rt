use av1_plane::PlaneConfig;

/// Where a tile's part of a plane stands: the layout of the frame's plane, and the part's first
/// sample, from the plane's origin.
#[derive(Clone, Copy, Debug)]
pub struct PartPlace {
    pub cfg: PlaneConfig,
    pub x: isize,
    pub y: isize,
}
