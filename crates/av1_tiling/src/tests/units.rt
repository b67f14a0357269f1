ghost use Rattle.std.specs.Prelude.{◌≡◌, ◌<◌, IfOk};
ghost use Rattle.std.specs.List.{AllZip};
ghost use Rattle.av1_block.specs.Tables.{table_entries};
ghost use Rattle.av1_tiling.specs.Frames.{IsTilingOf, views};
ghost use Rattle.av1_tiling.specs.Views.{View, SameShape};

use super::{blank_state, key_frame};
use crate::tiler::cut_tiles;
use crate::{FrameState, RestorationPlane, RestorationState, TileContextMut, TilingInfo, put_back};
use av1_block::{FrameBlocks, RestorationFilter};
use av1_plane::{SuperBlockOffset, Three, TileSuperBlockOffset};
use std::alloc::Global;
use std::test::Fail;

const WIENER: RestorationFilter = RestorationFilter::Wiener {
    coeffs: [[1, 2, 3], [4, 5, 6]],
};

const STRONG: RestorationFilter = RestorationFilter::Sgrproj {
    set: 42,
    xqd: [10, 20],
};

const WEAK: RestorationFilter = RestorationFilter::Sgrproj {
    set: 5,
    xqd: [1, 2],
};

// Sets the unit at place `place` of the tile's units in plane `pli`.
#[tactic(auto, using(crate::proofs::Written::written))]
fn set_unit(
    tile: &mut TileContextMut<u8>,
    pli: usize,
    place: usize,
    filter: RestorationFilter,
) -> Result<(), Fail>
    requires { pli < 3 }
    ensures { (first : View) → SameShape first tile.old → SameShape first tile.new }
{
    let units = tile.ts.units_mut(pli);
    if units.len() <= place {
        return Err(Fail::from("too few units"));
    }
    units[place].filter = filter;
    Ok(())
}

// Four tiles, in three of which a unit was set.
fn tiles_with_units(
    alloc: Global,
    tiling: &TilingInfo,
    fs: &FrameState<u8>,
    blocks: &FrameBlocks,
) -> Result<Vec<TileContextMut<u8>>, Fail>
    requires { IsTilingOf tiling.now fs.now blocks.now.cols blocks.now.rows }
    ensures { IfOk result (λ tiles.
        AllZip SameShape (views tiling.now fs.now (table_entries blocks.now)) tiles.items) }
{
    let mut tiles = cut_tiles(alloc, tiling, fs, blocks, tiling.tile_count())?;
    if tiles.len() != 4 {
        return Err(Fail::from("not four tiles"));
    }
    set_unit(&mut tiles[0], 0, 1, WIENER)?;
    set_unit(&mut tiles[3], 1, 2, STRONG)?;
    set_unit(&mut tiles[2], 2, 3, WEAK)?;
    Ok(tiles)
}

// The units of a state after tiles were put back into it.
fn put_tiles(
    alloc: Global,
    tiling: &TilingInfo,
    fs: FrameState<u8>,
    blocks: FrameBlocks,
    tiles: &[TileContextMut<u8>],
) -> Result<RestorationState, Fail>
    requires made { IsTilingOf tiling.now fs blocks.cols blocks.rows }
    requires shapes { AllZip SameShape (views tiling.now fs (table_entries blocks)) tiles.now }
{
    let mut blocks = blocks;
    let mut rec = fs.rec.try_clone(alloc)?;
    let FrameState {
        frame_me_stats: mut me,
        restoration: mut units,
        ..
    } = fs;
    put_back(tiles, &mut rec, &mut me, &mut units, &mut blocks);
    Ok(units)
}

#[test]
fn units_stand_where_tiles_lie(rt: HostRuntime) -> Result<(), Fail> {
    let alloc = rt.alloc();
    let fi = key_frame(alloc, 256, 256, 1, 1)?;
    let fs = blank_state(alloc, &fi)?;
    let blocks = FrameBlocks::new(alloc, 64, 64)?;
    let tiles = tiles_with_units(alloc, &fi.sequence.tiling, &fs, &blocks)?;
    let units = put_tiles(alloc, &fi.sequence.tiling, fs, blocks, &tiles)?;
    let Three { y, u, v } = &units.planes;
    // Each plane has four rows of four units, and one of them is set.
    for (plane, place, filter) in [(y, 1, WIENER), (u, 14, STRONG), (v, 13, WEAK)] {
        let units = plane.units.entries();
        assert_eq!(rt; units.len(), 16);
        assert_eq!(rt; units.get(place).map(|unit| unit.filter), Some(filter));
        let set = units
            .iter()
            .filter(|unit| unit.filter != RestorationFilter::None)
            .count();
        assert_eq!(rt; set, 1);
    }
    Ok(())
}

#[test]
fn stretched_unit_is_in_first_tile(rt: HostRuntime) -> Result<(), Fail> {
    let alloc = rt.alloc();
    let fi = key_frame(alloc, 64, 80, 2, 2)?;
    let fs = blank_state(alloc, &fi)?;
    let blocks = FrameBlocks::new(alloc, 16, 20)?;
    let tiles = fi.sequence.tiling.tile_iter_mut(alloc, &fs, &blocks)?;
    assert_eq!(rt; tiles.len(), 2);
    // For each tile, how many luma units it has, and the unit of a superblock below another, or past
    // the tile's superblocks.
    let wanted = [(0, 1, Some((0, 0)), None), (1, 0, None, None)];
    for (tile, (y, count, stretched, plain)) in tiles.zip(wanted) {
        let rect = tile.ts.units_rect(0);
        assert_eq!(rt; (rect.x, rect.y), (0, y));
        assert_eq!(rt; tile.ts.units(0).len(), count);
        let units = tile.ts.restoration();
        let luma = &units.planes.y;
        if luma.rp_cfg.sb_h_shift > 8 || luma.rp_cfg.sb_v_shift > 8 {
            return Err(Fail::from("units too large"));
        }
        let below = TileSuperBlockOffset(SuperBlockOffset { x: 0, y: 1 });
        assert_eq!(rt; luma.restoration_unit_index(below, true), stretched);
        assert_eq!(rt; luma.restoration_unit_index(below, false), plain);
        assert_eq!(rt;
            units.has_restoration_unit(below, 0, true),
            stretched.is_some()
        );
        assert_eq!(rt; units.has_restoration_unit(below, 0, false), false);
    }
    Ok(())
}
