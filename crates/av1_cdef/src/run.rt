ghost use Rattle.std.specs.Prelude.{◌≡◌, pos, ◌+◌, ◌<◌, ◌≤◌, length, map};
ghost use Rattle.av1_plane.specs.Region.{spot, numbers_under, first_place, row_step, area, IsStored, IsSamePart};
ghost use Rattle.av1_plane.specs.Numbers.{Below};
ghost use Rattle.av1_plane.specs.Runs.{placed};

use av1_plane::{Pixel, PlaneRegionMut};

#[inline(always)]
#[tactic(auto, using(av1_plane::proofs::Runs::runs))]
fn put_run<T: Pixel>(row: &mut [T], x: usize, from: &[u16])
    requires x { x + length from.now ≤ length row.old }
    requires range { Below T.limit (map pos from.now) }
    ensures { map T.number row.new
        ≡ placed (map T.number row.old) x (map pos from.now) 0 (length from.now) }
{
    for j in 0..from.len() {
        row[x + j] = T::from_i32(i32::from(from[j]));
    }
}

/// Writes numbers to row `y` from column `x` on.
#[inline(always)]
pub fn write_run<T: Pixel>(p: &mut PlaneRegionMut<'_, T>, x: usize, y: usize, from: &[u16])
    requires stored { IsStored p.old }
    requires x { x + length from.now ≤ (area p.old).width }
    requires y { y < (area p.old).height }
    requires range { Below T.limit (map pos from.now) }
    ensures part { IsSamePart p.old p.new }
    ensures value { numbers_under T.number p.new ≡ placed (numbers_under T.number p.old)
        (spot (first_place p.old) (row_step p.old) x y) (map pos from.now) 0 (length from.now) }
{
    let row = p.row_mut(y);
    put_run(row, x, from);
}

#[inline(always)]
#[tactic(auto, using(av1_plane::proofs::Runs::runs))]
fn put_samples<T: Pixel>(row: &mut [T], x: usize, from: &[T], first: usize, n: usize)
    requires x { x + n ≤ length row.old }
    requires first { first + n ≤ length from.now }
    ensures { map T.number row.new
        ≡ placed (map T.number row.old) x (map T.number from.now) first n }
{
    for j in 0..n {
        row[x + j] = from[first + j];
    }
}

/// Copies `n` samples from place `first` on to row `y` from column `x` on.
#[inline(always)]
pub fn copy_run<T: Pixel>(
    p: &mut PlaneRegionMut<'_, T>,
    x: usize,
    y: usize,
    from: &[T],
    first: usize,
    n: usize,
)
    requires stored { IsStored p.old }
    requires x { x + n ≤ (area p.old).width }
    requires y { y < (area p.old).height }
    requires first { first + n ≤ length from.now }
    ensures part { IsSamePart p.old p.new }
    ensures value { numbers_under T.number p.new ≡ placed (numbers_under T.number p.old)
        (spot (first_place p.old) (row_step p.old) x y) (map T.number from.now) first n }
{
    let row = p.row_mut(y);
    put_samples(row, x, from, first, n);
}
