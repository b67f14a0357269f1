//! The last line that holds each block, found by bands: a rectangle falls into bands of 2^n rows and
//! columns, at most two of each size each way. So a line costs a few steps, however many blocks it holds.
ghost use Rattle.std.specs.Prelude.{◌≡◌, ℕ, ◌+◌, ◌-◌, ◌*◌, ◌/◌, ◌^◌, ◌<◌, ◌≤◌, max, length, slice_index_or, if◌then◌else◌, nat_le, nat_lt, ◌==◌, ◌&&◌, OnOk};
ghost use Rattle.av1_rec.specs.Bands.{is_end, ends_with, last_line, no_line};
ghost use Rattle.av1_rec.specs.BlockTable.{holds};

use crate::text::block_line::BlockLine;
use std::alloc::{AllocError, Global};

// Writes a number to column `column` of row `row`, if the table has it.
#[tactic(auto, using(crate::proofs::BandFacts::place_written))]
fn put(numbers: &mut [usize], width: usize, row: usize, column: usize, number: usize)
    requires row { row ≤ 2 ^ 33 }
    requires width { width ≤ 16385 }
    ensures value { (p q : ℕ) → p < width → q * width + p < length numbers.old
        → slice_index_or numbers.new (q * width + p) 0
        ≡ (if q == row && p == column then number
        else slice_index_or numbers.old (q * width + p) 0) }
    ensures len { length numbers.new ≡ length numbers.old }
{
    if column < width && row * width + column < numbers.len() {
        numbers[row * width + column] = number;
    }
}

// Writes a number to the bands at the ends of a run of columns.
fn mark_row(
    numbers: &mut [usize],
    width: usize,
    row: usize,
    left: usize,
    right: usize,
    number: usize,
)
    requires row { row ≤ 2 ^ 33 }
    requires width { width ≤ 16385 }
    requires left { left < 2 ^ 33 }
    requires right { right ≤ 2 ^ 33 }
    ensures value { (p q : ℕ) → p < width → q * width + p < length numbers.old
        → slice_index_or numbers.new (q * width + p) 0
        ≡ (if q == row && is_end left right p then number
        else slice_index_or numbers.old (q * width + p) 0) }
    ensures len { length numbers.new ≡ length numbers.old }
{
    if left + 1 >= right {
        return;
    }
    if left % 2 == 0 {
        put(numbers, width, row, left + 1, number);
    }
    if right % 2 == 1 {
        put(numbers, width, row, right - 1, number);
    }
}

// Writes a line's number to the bands of 2^tall rows and 2^wide columns at the ends of its rectangle.
fn mark_line(
    numbers: &mut [usize],
    width: usize,
    line: &BlockLine,
    tall: u32,
    wide: u32,
    number: usize,
)
    requires width { width ≤ 16385 }
    requires tall { tall < 64 }
    requires wide { wide < 64 }
    ensures value { (p q : ℕ) → p < width → q * width + p < length numbers.old
        → slice_index_or numbers.new (q * width + p) 0
        ≡ (if ends_with tall wide line.now p q then number
        else slice_index_or numbers.old (q * width + p) 0) }
    ensures len { length numbers.new ≡ length numbers.old }
{
    let top = line.y as usize >> tall;
    let bottom = (line.y as usize + line.rows as usize + 1) >> tall;
    let left = line.x as usize >> wide;
    let right = (line.x as usize + line.cols as usize + 1) >> wide;
    if top + 1 >= bottom {
        return;
    }
    if top % 2 == 0 {
        mark_row(numbers, width, top + 1, left, right, number);
    }
    if bottom % 2 == 1 {
        mark_row(numbers, width, bottom - 1, left, right, number);
    }
}

// Writes the numbers of all lines to their bands, the later over the earlier.
fn mark_lines(numbers: &mut [usize], width: usize, lines: &[BlockLine], tall: u32, wide: u32)
    requires width { width ≤ 16385 }
    requires tall { tall < 64 }
    requires wide { wide < 64 }
    requires fresh { (i : ℕ) → slice_index_or numbers.old i 0 ≡ 0 }
    ensures value { (p q : ℕ) → p < width → q * width + p < length numbers.old
        → slice_index_or numbers.new (q * width + p) 0
        ≡ last_line (λ line. ends_with tall wide line p q) lines.now (length lines.now) }
    ensures len { length numbers.new ≡ length numbers.old }
{
    let mut number = 0;
    for line in lines {
        number += 1;
        mark_line(numbers, width, line, tall, wide, number);
    }
}

// Raises the numbers of a row of places to those of the bands that they are in.
fn raise_row(
    numbers: &mut [usize],
    start: usize,
    cols: usize,
    bands: &[usize],
    from: usize,
    wide: u32,
)
    requires start { start + cols ≤ length numbers.old }
    requires bands { from + cols / 2 ^ wide < length bands.now }
    requires cols { cols ≤ 16384 }
    requires wide { wide < 64 }
    ensures { (i : ℕ) → slice_index_or numbers.new i 0
        ≡ (if nat_le start i && nat_lt i (start + cols)
        then max (slice_index_or numbers.old i 0)
        (slice_index_or bands.now (from + (i - start + 1) / 2 ^ wide) 0)
        else slice_index_or numbers.old i 0) }
{
    for x in 0..cols {
        let number = bands[from + ((x + 1) >> wide)];
        numbers[start + x] = numbers[start + x].max(number);
    }
}

// Raises the numbers of all places to those of the bands that they are in.
fn raise(
    numbers: &mut [usize],
    cols: usize,
    rows: usize,
    bands: &[usize],
    width: usize,
    tall: u32,
    wide: u32,
)
    requires table { length numbers.old ≡ cols * rows }
    requires cols { cols ≤ 16384 }
    requires rows { rows ≤ 16384 }
    requires width { cols / 2 ^ wide < width }
    requires narrow { width ≤ 16385 }
    requires bands { (rows / 2 ^ tall + 1) * width ≤ length bands.now }
    requires tall { tall < 64 }
    requires wide { wide < 64 }
    ensures value { (x y : ℕ) → x < cols → y < rows → slice_index_or numbers.new (y * cols + x) 0
        ≡ max (slice_index_or numbers.old (y * cols + x) 0)
        (slice_index_or bands.now ((y + 1) / 2 ^ tall * width + (x + 1) / 2 ^ wide) 0) }
    ensures len { length numbers.new ≡ length numbers.old }
{
    for y in 0..rows {
        raise_row(
            numbers,
            y * cols,
            cols,
            bands,
            ((y + 1) >> tall) * width,
            wide,
        );
    }
}

// Raises the number of each place to that of the last line whose bands of 2^tall rows and 2^wide
// columns hold it. There is a 0 for each band.
fn raise_from(
    numbers: &mut [usize],
    cols: usize,
    rows: usize,
    bands: &mut [usize],
    lines: &[BlockLine],
    tall: u32,
    wide: u32,
)
    requires table { length numbers.old ≡ cols * rows }
    requires cols { cols ≤ 16384 }
    requires rows { rows ≤ 16384 }
    requires bands { (rows / 2 ^ tall + 1) * (cols / 2 ^ wide + 1) ≤ length bands.old }
    requires fresh { (i : ℕ) → slice_index_or bands.old i 0 ≡ 0 }
    requires tall { tall < 64 }
    requires wide { wide < 64 }
    ensures value { (x y : ℕ) → x < cols → y < rows → slice_index_or numbers.new (y * cols + x) 0
        ≡ max (slice_index_or numbers.old (y * cols + x) 0)
        (last_line (λ line. ends_with tall wide line ((x + 1) / 2 ^ wide) ((y + 1) / 2 ^ tall))
        lines.now (length lines.now)) }
    ensures len { length numbers.new ≡ length numbers.old }
{
    let width = (cols >> wide) + 1;
    mark_lines(bands, width, lines, tall, wide);
    raise(numbers, cols, rows, bands, width, tall, wide);
}

// Raises the number of each place as `raise_from` does, which needs a 0 for each band.
fn raise_by(
    alloc: Global,
    numbers: &mut [usize],
    cols: usize,
    rows: usize,
    lines: &[BlockLine],
    tall: u32,
    wide: u32,
) -> Result<(), AllocError>
    requires table { length numbers.old ≡ cols * rows }
    requires cols { cols ≤ 16384 }
    requires rows { rows ≤ 16384 }
    requires tall { tall < 64 }
    requires wide { wide < 64 }
    ensures value { OnOk result ((x y : ℕ) → x < cols → y < rows
        → slice_index_or numbers.new (y * cols + x) 0
        ≡ max (slice_index_or numbers.old (y * cols + x) 0)
        (last_line (λ line. ends_with tall wide line ((x + 1) / 2 ^ wide) ((y + 1) / 2 ^ tall))
        lines.now (length lines.now))) }
    ensures len { length numbers.new ≡ length numbers.old }
{
    let count = ((rows >> tall) + 1) * ((cols >> wide) + 1);
    let mut bands = vec![in alloc; 0usize; count]?;
    raise_from(numbers, cols, rows, &mut bands, lines, tall, wide);
    Ok(())
}

// How many sizes of bands a run of at most this length has.
fn band_sizes(longest: u32) -> u32
    ensures enough { longest + 1 < 2 ^ result }
    ensures few { result ≤ 64 }
{
    64 - (u64::from(longest) + 1).leading_zeros()
}

fn most_rows(lines: &[BlockLine]) -> u32
    ensures { (i : ℕ) → i < length lines.now → (slice_index_or lines.now i no_line).rows ≤ result }
{
    let mut most = 0;
    for line in lines {
        most = most.max(line.rows);
    }
    most
}

fn most_columns(lines: &[BlockLine]) -> u32
    ensures { (i : ℕ) → i < length lines.now → (slice_index_or lines.now i no_line).cols ≤ result }
{
    let mut most = 0;
    for line in lines {
        most = most.max(line.cols);
    }
    most
}

/// Raises the number of each place from 0 to that of the last line that holds it, counted from 1. There
/// are at most 16384 places each way.
pub fn raise_all(
    alloc: Global,
    numbers: &mut [usize],
    cols: usize,
    rows: usize,
    lines: &[BlockLine],
) -> Result<(), AllocError>
    requires table { length numbers.old ≡ cols * rows }
    requires cols { cols ≤ 16384 }
    requires rows { rows ≤ 16384 }
    requires fresh { (i : ℕ) → slice_index_or numbers.old i 0 ≡ 0 }
    ensures value { OnOk result ((x y : ℕ) → x < cols → y < rows
        → slice_index_or numbers.new (y * cols + x) 0
        ≡ last_line (λ line. holds line x y) lines.now (length lines.now)) }
    ensures len { length numbers.new ≡ length numbers.old }
{
    let talls = band_sizes(most_rows(lines));
    let wides = band_sizes(most_columns(lines));
    for tall in 0..talls {
        for wide in 0..wides {
            raise_by(alloc, numbers, cols, rows, lines, tall, wide)?;
        }
    }
    Ok(())
}
