use thiserror::Error;

/// Why a frame has no tiling.
#[derive(Clone, Copy, Debug, PartialEq, Eq, Error)]
pub enum TilingError {
    /// A number is out of range, or the frame needs more rows of tiles than it may have.
    #[error("no tiling of the frame meets the limits on tiles")]
    NoTiling,
}
