//! The numbers of loop restoration.
ghost use Rattle.std.specs.Prelude.{◌≡◌};
ghost use Rattle.av1_tiling.specs.SgrSets.{sgr_sets};

/// The logarithm of the largest unit's side.
pub const RESTORATION_TILESIZE_MAX_LOG2: usize = 8;

/// How a plane's units are coded: none is restored, any filter, Wiener filters only, self-guided
/// filters only.
pub const RESTORE_NONE: u8 = 0;

pub const RESTORE_SWITCHABLE: u8 = 1;

pub const RESTORE_WIENER: u8 = 2;

pub const RESTORE_SGRPROJ: u8 = 3;

/// The least, the usual and the greatest coefficients of a Wiener filter, and the parameters of
/// their code.
pub const WIENER_TAPS_MIN: [i8; 3] = [-5, -23, -17];

pub const WIENER_TAPS_MID: [i8; 3] = [3, -7, 15];

pub const WIENER_TAPS_MAX: [i8; 3] = [10, 8, 46];

pub const WIENER_TAPS_K: [i8; 3] = [1, 2, 3];

/// The bits of a Wiener filter's taps: together they weigh 128.
pub const WIENER_BITS: usize = 7;

/// The least, the usual and the greatest weights of the self-guided filter's passes.
pub const SGRPROJ_XQD_MIN: [i8; 2] = [-96, -32];

pub const SGRPROJ_XQD_MID: [i8; 2] = [-32, 31];

pub const SGRPROJ_XQD_MAX: [i8; 2] = [31, 95];

/// The parameter of the code of a weight, and the bits of a weight, a set, a product with a
/// strength, a weight of the sample itself, a reciprocal, and a restored sample's fraction.
pub const SGRPROJ_PRJ_SUBEXP_K: u8 = 4;

pub const SGRPROJ_PRJ_BITS: u8 = 7;

pub const SGRPROJ_PARAMS_BITS: u8 = 4;

pub const SGRPROJ_MTABLE_BITS: u8 = 20;

pub const SGRPROJ_SGR_BITS: u8 = 8;

pub const SGRPROJ_RECIP_BITS: u8 = 12;

pub const SGRPROJ_RST_BITS: u8 = 4;

/// The strengths of the self-guided filter's passes of radius 2 and 1, for each set. A pass of
/// strength 0 leaves the sample as it is.
pub const SGRPROJ_PARAMS_S: [[u32; 2]; 16] = [
    [140, 3236],
    [112, 2158],
    [93, 1618],
    [80, 1438],
    [70, 1295],
    [58, 1177],
    [47, 1079],
    [37, 996],
    [30, 925],
    [25, 863],
    [0, 2589],
    [0, 1618],
    [0, 1177],
    [0, 925],
    [56, 0],
    [22, 0],
];

/// The sides of the prefix sums for a whole unit: its samples, three more on each side, and the
/// empty sums.
pub const SOLVE_IMAGE_MAX: usize = 256;

pub const SOLVE_IMAGE_STRIDE: usize = 264;

pub const SOLVE_IMAGE_HEIGHT: usize = 264;

pub const SOLVE_IMAGE_SIZE: usize = 69696;

/// The sides of the prefix sums for a stripe of a unit, which may be half a unit wider.
pub const STRIPE_IMAGE_MAX: usize = 384;

pub const STRIPE_IMAGE_STRIDE: usize = 392;

pub const STRIPE_IMAGE_HEIGHT: usize = 72;

pub const STRIPE_IMAGE_SIZE: usize = 28224;

/// The most columns of a stripe of a unit.
pub const IMAGE_WIDTH_MAX: usize = 384;

// Every set.
static SGRPROJ_ALL_SETS: [u8; 16] = [0, 1, 2, 3, 4, 5, 6, 7, 8, 9, 10, 11, 12, 13, 14, 15];

// Every other set: the strengths grow from set to set of a kind.
static SGRPROJ_REDUCED_SETS: [u8; 8] = [1, 3, 5, 7, 9, 11, 13, 15];

/// How many sets of strengths an encoder tries.
#[derive(Clone, Copy, Debug, PartialEq, Eq)]
pub enum SGRComplexityLevel {
    Full,
    Reduced,
}

/// The sets of strengths to try.
pub fn get_sgr_sets(complexity: SGRComplexityLevel) -> &'static [u8]
    ensures { result.now ≡ sgr_sets complexity }
{
    match complexity {
        SGRComplexityLevel::Full => &SGRPROJ_ALL_SETS,
        SGRComplexityLevel::Reduced => &SGRPROJ_REDUCED_SETS,
    }
}
