//! The units of a plane.
use av1_block::{FrameRestorationUnits, RestorationUnit};
use av1_plane::OutOfMemory;
use std::alloc::Global;

/// How the units of a plane lie.
#[derive(Clone, Debug, Drop)]
pub struct RestorationPlaneConfig {
    /// `RESTORE_SWITCHABLE` and the like.
    pub lrf_type: u8,
    /// The side of a unit, in samples of the plane.
    pub unit_size: usize,
    /// The logarithms of a unit's sides in superblocks.
    pub sb_h_shift: usize,
    pub sb_v_shift: usize,
    /// The frame's sides in superblocks.
    pub sb_cols: usize,
    pub sb_rows: usize,
    /// The rows of a stripe.
    pub stripe_height: usize,
    /// The sides of the table of units.
    pub cols: usize,
    pub rows: usize,
}

/// The units of a plane, and how they lie.
#[derive(Debug, Drop)]
pub struct RestorationPlane {
    pub cfg: RestorationPlaneConfig,
    pub units: FrameRestorationUnits,
}

impl RestorationPlane {
    ghost use Rattle.std.specs.Prelude.{◌≡◌, ◌^◌, ◌<◌, ◌≤◌, ◌==◌, if◌then◌else◌, IfOk};
    ghost use Rattle.av1_tiling.specs.Restoration.{units_of, blank_units, unit_by_stripe, HasUnits};

    /// A plane of units that leave all samples as they are, `cols` by `rows` of them, each side at most
    /// 16384. Its stripes have 32 rows where `stripe_decimate` is not 0, and 64 otherwise.
    pub fn new(
        alloc: Global,
        lrf_type: u8,
        unit_size: usize,
        sb_h_shift: usize,
        sb_v_shift: usize,
        sb_cols: usize,
        sb_rows: usize,
        stripe_decimate: usize,
        cols: usize,
        rows: usize,
    ) -> Result<RestorationPlane, OutOfMemory>
        requires cols { cols ≤ 16384 }
        requires rows { rows ≤ 16384 }
        ensures { IfOk result (λ made. units_of made ≡ blank_units (record {
          lrf_type = lrf_type;
          unit_size = unit_size;
          sb_h_shift = sb_h_shift;
          sb_v_shift = sb_v_shift;
          sb_cols = sb_cols;
          sb_rows = sb_rows;
          stripe_height = if stripe_decimate == 0 then 64 else 32;
          cols = cols;
          rows = rows;
        })) }
    {
        let cfg = RestorationPlaneConfig {
            lrf_type,
            unit_size,
            sb_h_shift,
            sb_v_shift,
            sb_cols,
            sb_rows,
            stripe_height: if stripe_decimate == 0 { 64 } else { 32 },
            cols,
            rows,
        };
        let units = FrameRestorationUnits::new(alloc, cols, rows)?;
        Ok(RestorationPlane { cfg, units })
    }

    /// A copy of the units and of their layout.
    pub fn try_clone(&self, alloc: Global) -> Result<RestorationPlane, OutOfMemory>
        ensures { IfOk result (λ copy. units_of copy ≡ units_of self.now) }
    {
        Ok(RestorationPlane {
            cfg: RestorationPlaneConfig { ..self.cfg },
            units: self.units.try_clone(alloc)?,
        })
    }

    /// The unit of a stripe in column `rux` of the units, or in the last one.
    pub fn restoration_unit_by_stripe(&self, stripenum: usize, rux: usize) -> &RestorationUnit
        requires units { HasUnits (units_of self.now) }
        requires stripe { stripenum < 2 ^ 32 }
        ensures { result.now ≡ unit_by_stripe (units_of self.now) stripenum rux }
    {
        let rows = stripenum as u128 * self.cfg.stripe_height as u128;
        let row = (rows / self.cfg.unit_size as u128).min(self.cfg.rows as u128 - 1) as usize;
        let column = rux.min(self.cfg.cols - 1);
        let units = self.units.entries();
        let place = row * self.cfg.cols + column;
        &units[place]
    }
}
