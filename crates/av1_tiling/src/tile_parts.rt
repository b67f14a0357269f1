use crate::part_place::PartPlace;
use crate::plane_part::PlanePart;
use crate::restoration_plane::RestorationPlaneConfig;
use crate::tile_motion::TileMotion;
use av1_block::{Cut, RestorationUnit};
use av1_plane::{Pixel, Three};

/// The parts of a frame that a tile owns until they are put back, and where they stand. They are many
/// bytes of layouts, so a tile's state holds them in a box: it is moved from hand to hand several
/// times while tiles are coded.
#[derive(Debug, Drop)]
pub struct TileParts<T: Pixel> {
    pub(crate) rec: Three<PlanePart<T>>,
    pub(crate) places: Three<PartPlace>,
    pub(crate) units: Three<Cut<RestorationUnit>>,
    pub(crate) unit_layouts: Three<RestorationPlaneConfig>,
    pub(crate) me_stats: TileMotion,
}
