/// How many columns and rows of samples or blocks there are.
#[derive(Clone, Copy, Debug, PartialEq, Eq)]
pub struct Extent {
    pub width: u32,
    pub height: u32,
}

/// What a recorded tile has: samples of each plane inside the frame, and blocks.
#[derive(Clone, Copy, Debug, PartialEq, Eq)]
pub struct TileShape {
    pub luma: Extent,
    pub chroma: Extent,
    pub blocks: Extent,
}
