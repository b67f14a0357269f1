ghost use Rattle.std.specs.Prelude.{◌≡◌, pos, ◌+◌, ◌*◌, ◌^◌, ◌<◌, ◌≤◌, length};
ghost use Rattle.av1_plane.specs.Slices.{slice_row, slice_column, slice_start};
ghost use Rattle.av1_cdef.specs.Direction.{direction, direction_variance, IsDeepBlock};
ghost use Rattle.av1_cdef.specs.Pad.{HoldsWindow, HasPaddedCells, window_cells};
ghost use Rattle.av1_cdef.specs.Slices.{slice_step, slice_numbers, slice_block, sides_of_edges};

use crate::direction::direction_at;
use crate::pad::{Sides, pad_block};
use av1_plane::{Pixel, PlaneSlice};

/// The plane goes on to the left of the block.
pub const CDEF_HAVE_LEFT: u8 = 1;

/// The plane goes on to the right of the block.
pub const CDEF_HAVE_RIGHT: u8 = 2;

/// The plane goes on above the block.
pub const CDEF_HAVE_TOP: u8 = 4;

/// The plane goes on below the block.
pub const CDEF_HAVE_BOTTOM: u8 = 8;

/// The plane goes on past all four sides of the block.
pub const CDEF_HAVE_ALL: u8 = 15;

/// The direction of the 8x8 block at which a slice begins, from 0 to 7 (AV1 specification, section
/// 7.15.2). Its variance is written to `var`. Samples have `coeff_shift` bits more than 8.
pub fn cdef_find_dir<T: Pixel>(img: &PlaneSlice<'_, T>, var: &mut u32, coeff_shift: usize) -> i32
    requires rows { slice_row img.now + 7 < img.now.plane.now.cfg.alloc_height }
    requires columns { slice_column img.now + 7 < img.now.plane.now.cfg.stride }
    requires shift { coeff_shift ≤ 4 }
    requires depth { IsDeepBlock (256 * 2 ^ coeff_shift) (slice_numbers T.number img.now)
        (slice_start img.now) (slice_step img.now) }
    ensures direction { result ≡ pos (direction (slice_block T.number img.now coeff_shift)) }
    ensures variance { var.new ≡ direction_variance (slice_block T.number img.now coeff_shift) }
{
    let place = img.place();
    let (direction, variance) = direction_at(
        img.plane.samples.as_slice(),
        place,
        img.plane.cfg.stride,
        coeff_shift,
    );
    *var = variance;
    direction as i32
}

/// The cells of the block at which a slice begins, with two cells more on each side, in rows of
/// `dst_stride`: the first cell of row 0 is the sample two rows above and two columns left of the
/// block. A cell past a side whose flag is not set is `CDEF_VERY_LARGE`.
pub fn pad_into_tmp16<T: Pixel>(
    dst: &mut [u16],
    dst_stride: usize,
    src: &PlaneSlice<'_, T>,
    block_width: usize,
    block_height: usize,
    edges: u8,
)
    requires wide { block_width + 4 ≤ dst_stride }
    requires room { (block_height + 3) * dst_stride + block_width + 4 ≤ length dst.old }
    requires window { HoldsWindow (length (slice_numbers T.number src.now)) (slice_start src.now)
        (slice_step src.now) block_width block_height (sides_of_edges edges) }
    ensures { HasPaddedCells dst_stride block_width (block_height + 4)
        (window_cells (slice_numbers T.number src.now) (slice_start src.now) (slice_step src.now)
        block_width block_height (sides_of_edges edges)) dst.old dst.new }
{
    let place = src.place();
    let sides = Sides {
        left: edges & CDEF_HAVE_LEFT != 0,
        right: edges & CDEF_HAVE_RIGHT != 0,
        top: edges & CDEF_HAVE_TOP != 0,
        bottom: edges & CDEF_HAVE_BOTTOM != 0,
    };
    pad_block(
        dst,
        dst_stride,
        src.plane.samples.as_slice(),
        place,
        src.plane.cfg.stride,
        block_width,
        block_height,
        sides,
    );
}
