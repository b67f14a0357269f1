use crate::deblock_state::DeblockState;
use crate::frame_state::FrameState;
use crate::part::{cut_frame, cut_units, motion_rect, part_places, samples_rect};
use crate::putting::{put_frame, put_motion, put_units};
use crate::restoration_state::RestorationState;
use crate::segmentation_state::SegmentationState;
use crate::tile_motion::TileMotion;
use crate::tile_parts::TileParts;
use crate::tile_restoration_plane::TileRestorationPlane;
use crate::tile_restoration_state::TileRestorationState;
use crate::tile_restoration_state_mut::TileRestorationStateMut;
use av1_block::{FrameMEStats, MiTileState, RestorationUnit};
use av1_plane::{Frame, OutOfMemory, Pixel, Plane, PlaneSuperBlockOffset, Three, TileRect};
use std::alloc::Global;
use std::marker::Model;
use std::sync::Arc;

mod block_info;
mod rec_mut;
mod views;

/// What a tile is coded from, beside its blocks: its place and sides, the whole input, and the
/// tile's parts of the reconstruction, of the restoration units and of the motion records, which it
/// owns until they are put back.
#[derive(Debug, Drop)]
pub struct TileStateMut<T: Pixel> {
    /// The tile's first superblock.
    pub sbo: PlaneSuperBlockOffset,
    pub sb_size_log2: usize,
    /// The tile's sides in superblocks.
    pub sb_width: usize,
    pub sb_height: usize,
    /// The tile's sides in units of 4 luma samples.
    pub mi_width: usize,
    pub mi_height: usize,
    /// The tile's sides in luma samples.
    pub width: usize,
    pub height: usize,
    pub input: Arc<Frame<T>>,
    pub input_hres: Arc<Plane<T>>,
    pub input_qres: Arc<Plane<T>>,
    pub deblock: DeblockState,
    pub segmentation: SegmentationState,
    /// What is known of the tile's coded units of 4 by 4 luma samples.
    pub coded_block_info: MiTileState,
    parts: Box<TileParts<T>>,
}

impl<T: Pixel> Model for TileStateMut<T> {
    ghost use Rattle.std.specs.Arc.{arc_value};
    ghost use Rattle.av1_tiling.specs.Views.{TileState, view_plane, view_frame, view_parts, view_units};

    ghost Value = { TileState };

    ghost view = { λ t. record {
      superblock = (t.sbo.0.x, t.sbo.0.y);
      sb_size_log2 = t.sb_size_log2;
      sb_width = t.sb_width;
      sb_height = t.sb_height;
      mi_width = t.mi_width;
      mi_height = t.mi_height;
      width = t.width;
      height = t.height;
      input = view_frame T.number (arc_value t.input);
      input_hres = view_plane T.number (arc_value t.input_hres);
      input_qres = view_plane T.number (arc_value t.input_qres);
      deblock = t.deblock;
      segmentation = t.segmentation;
      coded_block_info = t.coded_block_info;
      rec = view_parts T.number t.parts.value.rec;
      places = t.parts.value.places;
      units = view_units t.parts.value.units;
      unit_layouts = t.parts.value.unit_layouts;
      me_stats = t.parts.value.me_stats.parts;
      mi_cols = t.parts.value.me_stats.mi_cols;
      mi_rows = t.parts.value.me_stats.mi_rows;
    } };
}

impl<T: Pixel> TileStateMut<T> {
    ghost use Rattle.std.specs.Prelude.{◌≡◌, ◌<◌, map};
    ghost use Rattle.std.specs.Borrow.{Lends, sem, Array};
    ghost use Rattle.av1_tiling.specs.Views.{plane_at, with_samples};
    ghost use Rattle.av1_tiling.specs.contracts.tile_state.TileStateMut.{the_row};

    /// The tile's samples in plane `pli`, row by row, for writing.
    pub fn samples_mut(&mut self, pli: usize) -> &mut [T]
        requires { pli < 3 }
        ensures* writes_back { sem 𝓛 (Lends (the_row T.row T.Pixel) (Array T.row 0) self.entry
            result (λ w. with_samples self.old pli (map T.number w))) }
        ensures value { map T.number result.now ≡ (plane_at self.old.rec pli).entries }
    {
        match pli {
            0 => self.parts.rec.y.samples_mut(),
            1 => self.parts.rec.u.samples_mut(),
            _ => self.parts.rec.v.samples_mut(),
        }
    }
}

impl<T: Pixel> TileStateMut<T> {
    ghost use Rattle.std.specs.Prelude.{◌≡◌, ◌<◌};
    ghost use Rattle.std.specs.Borrow.{Lends, sem, Array};
    ghost use Rattle.av1_block.specs.contracts.restoration_unit.RestorationUnit.{the_row as unit_row};
    ghost use Rattle.av1_tiling.specs.Views.{plane_at, with_units};
    ghost use Rattle.av1_tiling.specs.contracts.tile_state.TileStateMut.{the_row};

    /// The tile's restoration units in plane `pli`, row by row, for writing.
    pub fn units_mut(&mut self, pli: usize) -> &mut [RestorationUnit]
        requires { pli < 3 }
        ensures* writes_back { sem 𝓛 (Lends (the_row T.row T.Pixel) (Array unit_row 0) self.entry
            result (with_units self.old pli)) }
        ensures value { result.now ≡ (plane_at self.old.units pli).entries }
    {
        match pli {
            0 => self.parts.units.y.entries_mut(),
            1 => self.parts.units.u.entries_mut(),
            _ => self.parts.units.v.entries_mut(),
        }
    }

    /// The tile's restoration units in plane `pli`, row by row.
    pub fn units(&self, pli: usize) -> &[RestorationUnit]
        requires { pli < 3 }
        ensures { result.now ≡ (plane_at self.now.units pli).entries }
    {
        match pli {
            0 => self.parts.units.y.entries(),
            1 => self.parts.units.u.entries(),
            _ => self.parts.units.v.entries(),
        }
    }
}

impl<T: Pixel> TileStateMut<T> {
    ghost use Rattle.std.specs.Prelude.{◌≡◌, ◌<◌, ◌*◌, length};
    ghost use Rattle.av1_tiling.specs.Views.{plane_at};

    /// Where the tile's restoration units stand in the table of plane `pli`.
    pub fn units_rect(&self, pli: usize) -> TileRect
        requires { pli < 3 }
        ensures place { result ≡ (plane_at self.now.units pli).rect }
        ensures whole { length (plane_at self.now.units pli).entries
            ≡ result.width * result.height }
    {
        match pli {
            0 => self.parts.units.y.rect(),
            1 => self.parts.units.u.rect(),
            _ => self.parts.units.v.rect(),
        }
    }
}

impl<T: Pixel> TileStateMut<T> {
    ghost use Rattle.std.specs.Prelude.{◌≡◌, ◌<◌, ◌*◌, length, map};
    ghost use Rattle.av1_tiling.specs.Views.{plane_at};

    /// The tile's samples in plane `pli`, row by row.
    pub fn samples(&self, pli: usize) -> &[T]
        requires { pli < 3 }
        ensures { map T.number result.now ≡ (plane_at self.now.rec pli).entries }
    {
        match pli {
            0 => self.parts.rec.y.samples(),
            1 => self.parts.rec.u.samples(),
            _ => self.parts.rec.v.samples(),
        }
    }

    /// Where the tile's samples stand among the stored ones of plane `pli`.
    pub fn samples_rect(&self, pli: usize) -> TileRect
        requires { pli < 3 }
        ensures place { result ≡ (plane_at self.now.rec pli).rect }
        ensures whole { length (plane_at self.now.rec pli).entries ≡ result.width * result.height }
    {
        match pli {
            0 => self.parts.rec.y.rect(),
            1 => self.parts.rec.u.rect(),
            _ => self.parts.rec.v.rect(),
        }
    }
}

impl<T: Pixel> TileStateMut<T> {
    ghost use Rattle.av1_tiling.specs.UnitViews.{ShowsUnitPart, LendsUnitPart};

    /// The tile's restoration units, at their places in the frame's tables, as far as these tables go.
    pub fn restoration(&self) -> TileRestorationState<'_>
        ensures y { ShowsUnitPart self.now.unit_layouts.y self.now.units.y result.planes.y }
        ensures u { ShowsUnitPart self.now.unit_layouts.u self.now.units.u result.planes.u }
        ensures v { ShowsUnitPart self.now.unit_layouts.v self.now.units.v result.planes.v }
    {
        TileRestorationState {
            planes: Three {
                y: TileRestorationPlane::of_cut(&self.parts.unit_layouts.y, &self.parts.units.y),
                u: TileRestorationPlane::of_cut(&self.parts.unit_layouts.u, &self.parts.units.u),
                v: TileRestorationPlane::of_cut(&self.parts.unit_layouts.v, &self.parts.units.v),
            },
        }
    }

    /// The tile's restoration units for writing, at their places in the frame's tables, as far as
    /// these tables go. What the tile has after a write is said by `units_mut` alone.
    pub fn restoration_mut(&mut self) -> TileRestorationStateMut<'_>
        ensures y { LendsUnitPart self.old.unit_layouts.y self.old.units.y result.planes.y }
        ensures u { LendsUnitPart self.old.unit_layouts.u self.old.units.u result.planes.u }
        ensures v { LendsUnitPart self.old.unit_layouts.v self.old.units.v result.planes.v }
    {
        let parts = self.parts.as_mut();
        TileRestorationStateMut::of_cuts(&parts.unit_layouts, &mut parts.units)
    }
}

#[tactic(auto, using(crate::proofs::Fits::fits))]
impl<T: Pixel> TileStateMut<T> {
    ghost use Rattle.std.specs.Prelude.{◌≡◌, IfOk};
    ghost use Rattle.av1_tiling.specs.Grid.{IsBuiltSide};
    ghost use Rattle.av1_tiling.specs.Frames.{tile_state, LiesInFrame};

    /// The state of the tile whose first superblock is `sbo` and whose sides in luma samples are
    /// these, in a frame in which it lies. Superblocks have 64 samples a side.
    pub fn new(
        alloc: Global,
        fs: &FrameState<T>,
        sbo: PlaneSuperBlockOffset,
        sb_size_log2: usize,
        width: usize,
        height: usize,
    ) -> Result<TileStateMut<T>, OutOfMemory>
        requires superblock { IsBuiltSide sb_size_log2 }
        requires tile { LiesInFrame fs.now (sbo.0.x, sbo.0.y) sb_size_log2 width height }
        ensures { IfOk result (λ made.
            made ≡ tile_state fs.now (sbo.0.x, sbo.0.y) sb_size_log2 width height) }
    {
        let luma = samples_rect(sbo, width, height);
        let rec = cut_frame(alloc, &fs.rec, luma)?;
        let sb_width = width.div_ceil(64);
        let sb_height = height.div_ceil(64);
        let units = cut_units(alloc, &fs.restoration, sbo, sb_width, sb_height)?;
        let luma_cfg = &fs.rec.planes.y.cfg;
        let me_stats = TileMotion::take(
            alloc,
            &fs.frame_me_stats,
            motion_rect(sbo, width, height),
            luma_cfg.width / 4,
            luma_cfg.height / 4,
        )?;
        let coded_block_info = MiTileState::new(alloc, width / 4, height / 4)?;
        let parts = TileParts {
            rec,
            places: part_places(&fs.rec, luma),
            units,
            unit_layouts: fs.restoration.layouts(),
            me_stats,
        };
        let parts = Box::new(alloc, parts)?;
        Ok(TileStateMut {
            sbo,
            sb_size_log2,
            sb_width,
            sb_height,
            mi_width: width / 4,
            mi_height: height / 4,
            width,
            height,
            input: Arc::try_clone(&fs.input)?,
            input_hres: Arc::try_clone(&fs.input_hres)?,
            input_qres: Arc::try_clone(&fs.input_qres)?,
            deblock: fs.deblock,
            segmentation: fs.segmentation,
            coded_block_info,
            parts,
        })
    }
}

impl<T: Pixel> TileStateMut<T> {
    ghost use Rattle.std.specs.Prelude.{◌≡◌, length, map};
    ghost use Rattle.std.specs.List.{AllZip};
    ghost use Rattle.av1_tiling.specs.Views.{view_frame};
    ghost use Rattle.av1_tiling.specs.Restoration.{units_in};
    ghost use Rattle.av1_tiling.specs.Puts.{put_cuts, put_motion, put_units, PartLies};

    // Puts the tile's samples, motion records and restoration units back into a frame and its tables.
    pub(crate) fn put_back(
        &self,
        rec: &mut Frame<T>,
        me: &mut [FrameMEStats],
        units: &mut RestorationState,
    )
        requires y { PartLies (length (view_frame T.number rec.old).y.samples) self.now.rec.y }
        requires u { PartLies (length (view_frame T.number rec.old).u.samples) self.now.rec.u }
        requires v { PartLies (length (view_frame T.number rec.old).v.samples) self.now.rec.v }
        requires y_units { PartLies (length (units_in units.old).y.entries) self.now.units.y }
        requires u_units { PartLies (length (units_in units.old).u.entries) self.now.units.u }
        requires v_units { PartLies (length (units_in units.old).v.entries) self.now.units.v }
        requires motion { AllZip (λ t part. PartLies (length t.entries) part)
            (me.old) self.now.me_stats }
        ensures rec { view_frame T.number rec.new
            ≡ put_cuts (view_frame T.number rec.old) self.now.rec }
        ensures units { units_in units.new ≡ put_units (units_in units.old) self.now.units }
        ensures motion { me.new
            ≡ put_motion (me.old) self.now.me_stats }
    {
        put_frame(rec, &self.parts.rec);
        put_units(units, &self.parts.units);
        put_motion(me, self.parts.me_stats.cuts());
    }
}
