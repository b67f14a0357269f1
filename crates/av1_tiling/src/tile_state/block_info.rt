//! What is known of the coded units beside a block.
ghost use Rattle.std.specs.Prelude.{◌≡◌, ◌≤◌, ◌<◌};
ghost use Rattle.av1_tiling.specs.UnitInfos.{past_even, before_odd, info_at, info_above, info_left};

use crate::tile_state::TileStateMut;
use av1_block::{CodedBlockInfo, MiTileState};
use av1_plane::{Pixel, TileBlockOffset};

impl<T: Pixel> TileStateMut<T> {
    /// What is known of the unit above a block in a plane with these decimations, each at most
    /// 1. `None` at the tile's upper edge.
    pub fn above_block_info(
        &self,
        bo: TileBlockOffset,
        xdec: usize,
        ydec: usize,
    ) -> Option<CodedBlockInfo>
        requires xdec { xdec ≤ 1 }
        requires ydec { ydec ≤ 1 }
        requires x { past_even bo.0.x xdec < self.now.coded_block_info.cols }
        requires y { bo.0.y < self.now.coded_block_info.rows }
        ensures { result ≡ info_above self.now.coded_block_info bo.0 xdec ydec }
    {
        let x = past_even(bo.0.x, xdec);
        let y = before_odd(bo.0.y, ydec);
        if y == 0 {
            return None;
        }
        Some(info_at(&self.coded_block_info, x, y - 1))
    }

    /// What is known of the unit to the left of a block in a plane with these decimations, each
    /// at most 1. `None` at the tile's left edge.
    pub fn left_block_info(
        &self,
        bo: TileBlockOffset,
        xdec: usize,
        ydec: usize,
    ) -> Option<CodedBlockInfo>
        requires xdec { xdec ≤ 1 }
        requires ydec { ydec ≤ 1 }
        requires x { bo.0.x < self.now.coded_block_info.cols }
        requires y { past_even bo.0.y ydec < self.now.coded_block_info.rows }
        ensures { result ≡ info_left self.now.coded_block_info bo.0 xdec ydec }
    {
        let x = before_odd(bo.0.x, xdec);
        let y = past_even(bo.0.y, ydec);
        if x == 0 {
            return None;
        }
        Some(info_at(&self.coded_block_info, x - 1, y))
    }
}

// What is known of the unit at column `x` of row `y`.
#[tactic(auto, using(crate::proofs::Infos::infos))]
fn info_at(infos: &MiTileState, x: usize, y: usize) -> CodedBlockInfo
    requires column { x < infos.now.cols }
    requires row { y < infos.now.rows }
    ensures { result ≡ info_at infos.now x y }
{
    infos.entries()[y * infos.cols + x]
}

// An even place, moved on by a decimation.
fn past_even(place: usize, dec: usize) -> usize
    requires { dec ≤ 1 }
    ensures { result ≡ past_even place dec }
{
    if place % 2 == 0 { place + dec } else { place }
}

// An odd place, moved back by a decimation.
fn before_odd(place: usize, dec: usize) -> usize
    requires { dec ≤ 1 }
    ensures { result ≡ before_odd place dec }
{
    if place % 2 == 0 { place } else { place - dec }
}
