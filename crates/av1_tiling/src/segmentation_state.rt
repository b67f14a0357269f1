ghost use Rattle.std.specs.Prelude.{◌≡◌};
ghost use Rattle.av1_tiling.specs.Segmentation.{default_segmentation};

/// What the segments of a frame change (AV1 specification, section 5.9.14).
#[derive(Clone, Copy, Debug)]
pub struct SegmentationState {
    pub enabled: bool,
    /// By segment and feature, whether the segment has that feature.
    pub features: [[bool; 8]; 8],
    /// By segment and feature, the feature's value.
    pub values: [[i16; 8]; 8],
}

impl Default for SegmentationState {
    ghost is_default = { λ state. state ≡ default_segmentation };

    /// A state whose numbers are all zero and whose switches are all off.
    fn default() -> SegmentationState {
        SegmentationState {
            enabled: false,
            features: [[false; 8]; 8],
            values: [[0; 8]; 8],
        }
    }
}
