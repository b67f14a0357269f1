//! A frame made from a number alone.
ghost use Rattle.std.specs.Prelude.{◌≡◌, ◌^◌, pos, Ok, IfOk};
ghost use Rattle.av1_rec.specs.Generated.{generated};
ghost use Rattle.av1_rec.specs.Header.{IsHeader};
ghost use Rattle.av1_rec.specs.Read.{IsRead};
ghost use Rattle.av1_rec.specs.Text.{HasTiling, said};
ghost use Rattle.av1_rec.specs.Tiles.{AreTiles};

pub(crate) mod coded;
pub(crate) mod picture;

use crate::generated::coded::coded_tiles;
use crate::generated::picture::source;
use crate::text::Text;
use crate::text::fault::TextError;
use crate::text::header::{CdefStrengths, FrameFormat, Header, Quantizers, Switches, TilingTarget};
use av1_plane::ChromaSampling;
use av1_tiling::{DeblockState, FrameType, TilingInfo};
use std::alloc::Global;

const STRENGTHS: [u8; 8] = [0, 4, 8, 12, 1, 2, 3, 21];

/// A key frame of 1920 by 1080 in four tiles, with all filters and with chosen levels.
pub const HEADER: Header = Header {
    format: FrameFormat {
        width: 1920,
        height: 1080,
        sampling: ChromaSampling::Cs420,
        depth: 8,
    },
    target: TilingTarget {
        num: 30,
        den: 1,
        cols_log2: 1,
        rows_log2: 1,
    },
    frame_type: FrameType::KEY,
    quantizers: Quantizers {
        ac_quantizer: 100,
        base_q_idx: 100,
    },
    switches: Switches {
        fast_deblock: false,
        enable_cdef: true,
        enable_restoration: true,
        enable_large_lru: false,
        disable_frame_end_update_cdf: false,
    },
    deblock: DeblockState {
        levels: [0; 4],
        deltas_enabled: false,
        ref_deltas: [0; 8],
        mode_deltas: [0; 2],
        block_deltas_enabled: false,
        block_delta_shift: 0,
        block_delta_multi: false,
    },
    cdef: CdefStrengths {
        damping: 3,
        y_strengths: STRENGTHS,
        uv_strengths: STRENGTHS,
    },
};

/// The frame that a header of 8 bits and a number make, as a text would say it.
#[tactic(auto, unfolding(crate::specs::Generated::generated))]
pub fn generated(
    alloc: Global,
    header: &Header,
    tiling: TilingInfo,
    seed: u32,
) -> Result<Text<u8>, TextError>
    requires header { IsHeader header.now }
    requires tiling { HasTiling header.now tiling }
    requires tiles { AreTiles tiling }
    requires depth { header.now.format.depth ≡ 8 }
    ensures value { IfOk result (λ t. said pos t ≡ generated header.now tiling seed) }
    ensures read { IfOk result (λ t. IsRead (said pos t)) }
    ensures depth { IfOk result (λ t. t.header.format.depth ≡ 8) }
{
    let source = source(alloc, &header.format, seed)?;
    let tiles = coded_tiles(alloc, header, &tiling, &source)?;
    Ok(Text {
        header: *header,
        tiling,
        source,
        tiles,
    })
}
