//! What lies in a table's slot for a tile.
use crate::coder::CodeError;
use av1_plane::Pixel;
use av1_tiling::TileContextMut;

/// What a table gives for a tile that was handed out: the coder's answer, and the view after it.
#[derive(Debug, Drop)]
pub struct Delivered<T: Pixel> {
    pub coded: Result<Vec<u8>, CodeError>,
    pub view: TileContextMut<T>,
}

/// A tile's slot: its view as it starts, nothing while a caller codes it, then its result.
#[derive(Drop)]
pub(crate) enum Place<T: Pixel> {
    Start(TileContextMut<T>),
    Out,
    Done(Delivered<T>),
}
