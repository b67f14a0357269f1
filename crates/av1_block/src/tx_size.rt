ghost use Rattle.std.specs.Prelude.{◌≡◌};
ghost use Rattle.av1_block.specs.Sides.{tx_width, tx_height};

/// Size of a transform, width by height in samples (section 6.10.19).
#[allow(non_camel_case_types)]
#[derive(Clone, Copy, Debug, PartialEq, Eq)]
pub enum TxSize {
    TX_4X4,
    TX_8X8,
    TX_16X16,
    TX_32X32,
    TX_64X64,
    TX_4X8,
    TX_8X4,
    TX_8X16,
    TX_16X8,
    TX_16X32,
    TX_32X16,
    TX_32X64,
    TX_64X32,
    TX_4X16,
    TX_16X4,
    TX_8X32,
    TX_32X8,
    TX_16X64,
    TX_64X16,
}

impl TxSize {
    /// The width in units of four samples.
    pub fn width_mi(self) -> usize
        ensures { result ≡ tx_width self }
    {
        match self {
            TxSize::TX_4X4 | TxSize::TX_4X8 | TxSize::TX_4X16 => 1,
            TxSize::TX_8X8 | TxSize::TX_8X4 | TxSize::TX_8X16 | TxSize::TX_8X32 => 2,
            TxSize::TX_16X16
            | TxSize::TX_16X8
            | TxSize::TX_16X32
            | TxSize::TX_16X4
            | TxSize::TX_16X64 => 4,
            TxSize::TX_32X32 | TxSize::TX_32X16 | TxSize::TX_32X64 | TxSize::TX_32X8 => 8,
            TxSize::TX_64X64 | TxSize::TX_64X32 | TxSize::TX_64X16 => 16,
        }
    }

    /// The height in units of four samples.
    pub fn height_mi(self) -> usize
        ensures { result ≡ tx_height self }
    {
        match self {
            TxSize::TX_4X4 | TxSize::TX_8X4 | TxSize::TX_16X4 => 1,
            TxSize::TX_8X8 | TxSize::TX_4X8 | TxSize::TX_16X8 | TxSize::TX_32X8 => 2,
            TxSize::TX_16X16
            | TxSize::TX_8X16
            | TxSize::TX_32X16
            | TxSize::TX_4X16
            | TxSize::TX_64X16 => 4,
            TxSize::TX_32X32 | TxSize::TX_16X32 | TxSize::TX_64X32 | TxSize::TX_8X32 => 8,
            TxSize::TX_64X64 | TxSize::TX_32X64 | TxSize::TX_16X64 => 16,
        }
    }
}
