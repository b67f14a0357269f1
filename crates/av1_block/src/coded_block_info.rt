ghost use Rattle.av1_block.specs.CodedBlockInfo.{no_info};
ghost use Rattle.std.specs.Prelude.{◌≡◌, ◌*◌, replicate, IfOk};

use crate::prediction_mode::PredictionMode;
use crate::ref_type::RefType;
use crate::table::Table;
use av1_plane::OutOfMemory;
use std::alloc::Global;

/// What the coding of later units reads of a coded unit of 4 by 4 luma samples.
#[derive(Clone, Copy, Debug)]
pub struct CodedBlockInfo {
    pub luma_mode: PredictionMode,
    pub chroma_mode: PredictionMode,
    pub reference_types: [RefType; 2],
}

impl Default for CodedBlockInfo {
    ghost is_default = { λ info. info ≡ no_info };

    /// `DC_PRED` in luma and chroma, predicted from the frame itself alone.
    fn default() -> CodedBlockInfo {
        CodedBlockInfo {
            luma_mode: PredictionMode::DC_PRED,
            chroma_mode: PredictionMode::DC_PRED,
            reference_types: [RefType::INTRA_FRAME, RefType::NONE_FRAME],
        }
    }
}

/// What is known of the coded units of a tile.
pub type MiTileState = Table<CodedBlockInfo>;

impl Table<CodedBlockInfo> {
    /// A table of defaults, `mi_width` by `mi_height` of them.
    pub fn new(alloc: Global, mi_width: usize, mi_height: usize) -> Result<MiTileState, OutOfMemory>
        ensures cols { IfOk result (λ made. made.cols ≡ mi_width) }
        ensures rows { IfOk result (λ made. made.rows ≡ mi_height) }
        ensures infos { IfOk result (λ made.
            made.entries ≡ replicate (mi_width * mi_height) no_info) }
    {
        // No memory holds more entries than a usize counts.
        let Some(count) = mi_width.checked_mul(mi_height) else {
            return Err(OutOfMemory);
        };
        let infos = vec![in alloc; CodedBlockInfo::default(); count]?;
        Ok(Table::from_entries(infos, mi_width, mi_height))
    }
}
