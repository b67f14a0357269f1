ghost use Rattle.std.specs.Prelude.{◌≡◌, ◌≢◌, ◌+◌, ◌-◌, ◌*◌, ◌/◌, ◌<◌, ◌≤◌, ◌^◌, ℕ, pos, ◌≤ℤ◌, ◌-ℤ◌, length, true, false};
ghost use Rattle.av1_plane.specs.Numbers.{Below, InDepth, IsDepth};
ghost use Rattle.av1_deblock.specs.Line.{IsSize};
ghost use Rattle.av1_deblock.specs.Columns.{column};
ghost use Rattle.av1_deblock.specs.Thresholds.{IsScale};
ghost use Rattle.av1_deblock.specs.Errors.{HasLimits, IsProfile, profile_of, marks_error, cells_error, HasProfiles, raised, jumped, unfiltered_of, IsBoundedBy, HasAdded};

use crate::line::scale_of;
use crate::profile::{Profile, profile_line};

#[inline(always)]
fn profile_at(marks: &[u32], k: usize) -> Profile
    requires k { k < 4 }
    requires long { length marks.now ≡ 20 }
    ensures { result ≡ profile_of marks.now k }
{
    Profile {
        unfiltered: marks[k],
        from: marks[4 + k],
        high: marks[8 + k],
        lost: marks[12 + k],
        low: marks[16 + k],
    }
}

#[inline(always)]
fn put_profile(marks: &mut [u32], k: usize, p: Profile)
    requires k { k < 4 }
    requires long { length marks.old ≡ 20 }
    ensures long { length marks.new ≡ 20 }
    ensures value { profile_of marks.new k ≡ p }
    ensures others { (i : ℕ) → i < 4 → i ≢ k → profile_of marks.new i ≡ profile_of marks.old i }
{
    marks[k] = p.unfiltered;
    marks[4 + k] = p.from;
    marks[8 + k] = p.high;
    marks[12 + k] = p.lost;
    marks[16 + k] = p.low;
}

#[inline(always)]
fn add_at(entries: &mut [i64], at: usize, v: i64)
    requires at { at < length entries.old }
    requires near { IsBoundedBy 4611686018427387904 entries.old }
    requires low { (pos 0 -ℤ pos 1073741824) ≤ℤ v }
    requires high { v ≤ℤ pos 1073741824 }
    ensures value { entries.new ≡ raised entries.old at v }
    ensures long { length entries.new ≡ length entries.old }
    ensures near { (n m : ℕ) → (pos 0 -ℤ pos m) ≤ℤ v → v ≤ℤ pos m → IsBoundedBy n entries.old
        → IsBoundedBy (n + m) entries.new }
{
    entries[at] += v;
}

#[inline(always)]
fn difference(a: u32, b: u32) -> i64
    requires a { a ≤ 268435456 }
    requires b { b ≤ 268435456 }
    ensures value { result ≡ pos a -ℤ pos b }
    ensures low { (pos 0 -ℤ pos 268435456) ≤ℤ result }
    ensures high { result ≤ℤ pos 268435456 }
{
    i64::from(a) - i64::from(b)
}

#[inline(always)]
fn add_difference(entries: &mut [i64], at: usize, a: u32, b: u32)
    requires at { at < length entries.old }
    requires near { IsBoundedBy 4611686018427387904 entries.old }
    requires a { a ≤ 268435456 }
    requires b { b ≤ 268435456 }
    ensures value { entries.new ≡ raised entries.old at (pos a -ℤ pos b) }
    ensures long { length entries.new ≡ length entries.old }
    ensures near { (n : ℕ) → IsBoundedBy n entries.old → IsBoundedBy (n + 268435456) entries.new }
{
    let v = difference(a, b);
    add_at(entries, at, v);
}

// Adds what the error of a line changes by at its two levels.
#[inline(always)]
fn add_profile(entries: &mut [i64], p: Profile)
    requires long { length entries.old ≡ 65 }
    requires near { IsBoundedBy 3458764513820540928 entries.old }
    requires limits { HasLimits p }
    ensures value { entries.new ≡ jumped entries.old p }
    ensures long { length entries.new ≡ 65 }
    ensures near { (n : ℕ) → IsBoundedBy n entries.old → IsBoundedBy (n + 536870912) entries.new }
{
    add_difference(entries, p.from as usize, p.high, p.unfiltered);
    add_difference(entries, p.lost as usize, p.low, p.high);
}

// The errors of four lines that aren't filtered.
#[inline(always)]
fn unfiltered_total(marks: &[u32]) -> i64
    requires long { length marks.now ≡ 20 }
    requires limits { (k : ℕ) → k < 4 → HasLimits (profile_of marks.now k) }
    ensures value { result ≡ pos (unfiltered_of marks.now) }
    ensures high { unfiltered_of marks.now ≤ 1073741824 }
{
    i64::from(marks[0] + marks[1] + marks[2] + marks[3])
}

// Adds them at level 0, all at once.
#[inline(always)]
fn add_unfiltered(entries: &mut [i64], marks: &[u32])
    requires long { length entries.old ≡ 65 }
    requires near { IsBoundedBy 3458764513820540928 entries.old }
    requires marks { length marks.now ≡ 20 }
    requires limits { (k : ℕ) → k < 4 → HasLimits (profile_of marks.now k) }
    ensures value { entries.new ≡ raised entries.old 0 (pos (unfiltered_of marks.now)) }
    ensures long { length entries.new ≡ 65 }
    ensures near { (n : ℕ) → IsBoundedBy n entries.old → IsBoundedBy (n + 1073741824) entries.new }
{
    let total = unfiltered_total(marks);
    add_at(entries, 0, total);
}

// A sample. That it stays below the bound changes nothing, but says to LLVM what range it has, where the
// bound is a constant.
#[inline(always)]
fn within(v: i32, bound: u32) -> i32
    requires v { InDepth bound v }
    ensures { result ≡ v }
{
    (v as u32 % bound) as i32
}

// Takes line k out of the cells.
#[inline(always)]
#[tactic(auto, using(crate::proofs::SideBySide::cells))]
fn take_line(cells: &[i32], k: usize, line: &mut [i32], bound: u32)
    requires k { k < 4 }
    requires cells { length cells.now ≡ 4 * length line.old }
    requires range { Below bound cells.now }
    ensures { line.new ≡ column cells.now k (length line.old) }
{
    for j in 0..line.len() {
        line[j] = within(cells[4 * j + k], bound);
    }
}

// The profile of line k, by way of `line`, `other`, `moved` and `wider`.
#[inline(always)]
fn profile_by(
    cells: &[i32],
    source: &[i32],
    k: usize,
    line: &mut [i32],
    other: &mut [i32],
    moved: &mut [i32],
    wider: &mut [i32],
    scale: u32,
    bits: u32,
) -> Profile
    requires k { k < 4 }
    requires size { IsSize (length line.old) }
    requires other { length other.old ≡ length line.old }
    requires moved { length moved.old ≡ length line.old }
    requires wider { length wider.old ≡ length line.old }
    requires cells { length cells.now ≡ 4 * length line.old }
    requires source { length source.now ≡ 4 * length line.old }
    requires kind { IsScale scale }
    requires bits { bits ≤ 4 }
    requires scale { scale ≡ 2 ^ bits }
    requires low { 1 ≤ scale }
    requires high { scale ≤ 16 }
    requires range { Below (256 * scale) cells.now }
    requires source_range { Below (256 * scale) source.now }
    ensures value { IsProfile scale (length line.old) (column cells.now k (length line.old))
        (column source.now k (length line.old)) result }
    ensures line { length line.new ≡ length line.old }
    ensures other { length other.new ≡ length other.old }
    ensures moved { length moved.new ≡ length moved.old }
    ensures wider { length wider.new ≡ length wider.old }
{
    let bound = 256 * scale;
    take_line(cells, k, line, bound);
    take_line(source, k, other, bound);
    profile_line(line, other, moved, wider, scale, bits)
}

#[inline(always)]
#[tactic(auto, using(crate::proofs::Errors::profiles))]
fn fill_each_by(
    cells: &[i32],
    source: &[i32],
    marks: &mut [u32],
    line: &mut [i32],
    other: &mut [i32],
    moved: &mut [i32],
    wider: &mut [i32],
    scale: u32,
    bits: u32,
)
    requires size { IsSize (length line.old) }
    requires other { length other.old ≡ length line.old }
    requires moved { length moved.old ≡ length line.old }
    requires wider { length wider.old ≡ length line.old }
    requires cells { length cells.now ≡ 4 * length line.old }
    requires source { length source.now ≡ 4 * length line.old }
    requires marks { length marks.old ≡ 20 }
    requires kind { IsScale scale }
    requires bits { bits ≤ 4 }
    requires scale { scale ≡ 2 ^ bits }
    requires low { 1 ≤ scale }
    requires high { scale ≤ 16 }
    requires range { Below (256 * scale) cells.now }
    requires source_range { Below (256 * scale) source.now }
    ensures { HasProfiles scale (length line.old) 4 cells.now source.now marks.new }
{
    for k in 0..4 {
        let p = profile_by(cells, source, k, line, other, moved, wider, scale, bits);
        put_profile(marks, k, p);
    }
}

#[inline(always)]
fn fill_each<const SIZE: usize>(
    cells: &[i32],
    source: &[i32],
    marks: &mut [u32],
    scale: u32,
    bits: u32,
)
    requires size { IsSize SIZE }
    requires cells { length cells.now ≡ 4 * SIZE }
    requires source { length source.now ≡ 4 * SIZE }
    requires marks { length marks.old ≡ 20 }
    requires kind { IsScale scale }
    requires bits { bits ≤ 4 }
    requires scale { scale ≡ 2 ^ bits }
    requires low { 1 ≤ scale }
    requires high { scale ≤ 16 }
    requires range { Below (256 * scale) cells.now }
    requires source_range { Below (256 * scale) source.now }
    ensures { HasProfiles scale SIZE 4 cells.now source.now marks.new }
{
    let mut line = [0; SIZE];
    let mut other = [0; SIZE];
    let mut moved = [0; SIZE];
    let mut wider = [0; SIZE];
    fill_each_by(
        cells, source, marks, &mut line, &mut other, &mut moved, &mut wider, scale, bits,
    )
}

// Adds the profiles of four lines.
#[inline(always)]
fn add_profiles(entries: &mut [i64], marks: &[u32])
    requires long { length entries.old ≡ 65 }
    requires near { IsBoundedBy 2305843009213693952 entries.old }
    requires marks { length marks.now ≡ 20 }
    requires limits { (k : ℕ) → k < 4 → HasLimits (profile_of marks.now k) }
    ensures { HasAdded 4294967296 (marks_error marks.now) entries.old entries.new }
{
    add_unfiltered(entries, marks);
    add_profile(entries, profile_at(marks, 0));
    add_profile(entries, profile_at(marks, 1));
    add_profile(entries, profile_at(marks, 2));
    add_profile(entries, profile_at(marks, 3));
}

#[inline(always)]
fn bits_of(bd: usize) -> u32
    requires { IsDepth bd }
    ensures { result ≡ bd - 8 }
{
    (bd - 8) as u32
}

// The profiles of four lines.
#[inline(always)]
fn fill_profiles<const SIZE: usize>(cells: &[i32], source: &[i32], marks: &mut [u32], bd: usize)
    requires size { IsSize SIZE }
    requires cells { length cells.now ≡ 4 * SIZE }
    requires source { length source.now ≡ 4 * SIZE }
    requires marks { length marks.old ≡ 20 }
    requires depth { IsDepth bd }
    requires range { Below (2 ^ bd) cells.now }
    requires source_range { Below (2 ^ bd) source.now }
    ensures { HasProfiles (2 ^ (bd - 8)) SIZE 4 cells.now source.now marks.new }
{
    let scale = scale_of(bd);
    let bits = bits_of(bd);
    fill_each::<SIZE>(cells, source, marks, scale, bits)
}

// The same in a list of its own, for one depth. It isn't inlined, so that what is written can't be what is
// read, however many callers there are, and four lines are taken at once. The depth is a constant, so that
// LLVM knows between which numbers samples are kept.
#[inline(never)]
fn profiles_of<const SIZE: usize, const BD: usize>(cells: &[i32], source: &[i32]) -> [u32; 20]
    requires size { IsSize SIZE }
    requires cells { length cells.now ≡ 4 * SIZE }
    requires source { length source.now ≡ 4 * SIZE }
    requires depth { IsDepth BD }
    requires range { Below (2 ^ BD) cells.now }
    requires source_range { Below (2 ^ BD) source.now }
    ensures { HasProfiles (2 ^ (BD - 8)) SIZE 4 cells.now source.now result }
{
    let mut marks = [0; 20];
    fill_profiles::<SIZE>(cells, source, &mut marks, BD);
    marks
}

// For any depth.
#[inline(always)]
fn profiles_at<const SIZE: usize>(cells: &[i32], source: &[i32], bd: usize) -> [u32; 20]
    requires size { IsSize SIZE }
    requires cells { length cells.now ≡ 4 * SIZE }
    requires source { length source.now ≡ 4 * SIZE }
    requires depth { IsDepth bd }
    requires range { Below (2 ^ bd) cells.now }
    requires source_range { Below (2 ^ bd) source.now }
    ensures { HasProfiles (2 ^ (bd - 8)) SIZE 4 cells.now source.now result }
{
    if bd == 8 {
        profiles_of::<SIZE, 8>(cells, source)
    } else if bd == 10 {
        profiles_of::<SIZE, 10>(cells, source)
    } else {
        profiles_of::<SIZE, 12>(cells, source)
    }
}

/// Adds the errors of the four lines of an edge at every level.
#[inline(always)]
pub fn add_cells<const SIZE: usize>(entries: &mut [i64], cells: &[i32], source: &[i32], bd: usize)
    requires size { IsSize SIZE }
    requires cells { length cells.now ≡ 4 * SIZE }
    requires source { length source.now ≡ 4 * SIZE }
    requires long { length entries.old ≡ 65 }
    requires near { IsBoundedBy 2305843009213693952 entries.old }
    requires depth { IsDepth bd }
    requires range { Below (2 ^ bd) cells.now }
    requires source_range { Below (2 ^ bd) source.now }
    ensures { HasAdded 4294967296 (cells_error bd SIZE cells.now source.now) entries.old
        entries.new }
{
    let marks = profiles_at::<SIZE>(cells, source, bd);
    add_profiles(entries, &marks);
}
