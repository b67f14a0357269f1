ghost use Rattle.std.specs.Prelude.{◌≡◌};
ghost use Rattle.av1_tiling.specs.Deblock.{default_deblock};

/// The frame's deblocking levels and what blocks add to them (AV1 specification, section 5.9.11).
#[derive(Clone, Copy, Debug)]
pub struct DeblockState {
    /// For vertical and for horizontal luma edges, for U and for V: 0 to 63.
    pub levels: [u8; 4],
    pub deltas_enabled: bool,
    /// One for each reference, by its number.
    pub ref_deltas: [i8; 8],
    /// For modes that move by the frame's own motion or not at all, and for the others.
    pub mode_deltas: [i8; 2],
    pub block_deltas_enabled: bool,
    /// 0 to 3.
    pub block_delta_shift: u8,
    pub block_delta_multi: bool,
}

impl Default for DeblockState {
    ghost is_default = { λ state. state ≡ default_deblock };

    /// A state whose numbers are all zero and whose switches are all off.
    fn default() -> DeblockState {
        DeblockState {
            levels: [0; 4],
            deltas_enabled: false,
            ref_deltas: [0; 8],
            mode_deltas: [0; 2],
            block_deltas_enabled: false,
            block_delta_shift: 0,
            block_delta_multi: false,
        }
    }
}
