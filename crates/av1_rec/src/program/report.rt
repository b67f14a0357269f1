ghost use Rattle.std.specs.Prelude.{◌≡◌, ◌<◌, ◌≤◌, ◌^◌, ◌+◌, ◌++◌, ◌∷◌, [], ℤ, pos, map, codes, decimal, length, OnOk, IfOk};
ghost use Rattle.std.specs.List.{flat_map};
ghost use Rattle.av1_rec.specs.Report.{digit, byte_digits, sample_digits, natural, row_line, plane_text, planes_text, spaced, head, report, region_rows};

use av1_plane::{Pixel, PlaneRegion};
use itoa::Buffer;
use std::alloc::{AllocError, Global};

/// How a coded frame is printed.
#[derive(Clone, Copy, Debug, PartialEq, Eq)]
pub enum Form {
    /// The bytes of the tile group and all samples of the picture.
    Report,
    /// How many bytes there are, and the sum of each plane's samples.
    Summary,
}

/// The numbers and bytes that are reported of a frame beside its samples.
#[derive(Clone, Copy, Debug)]
pub struct Results<'a> {
    pub levels: [u8; 4],
    pub size_bytes: u32,
    pub context_tile: usize,
    pub group: &'a [u8],
    /// Samples have four digits.
    pub wide: bool,
}

/// Appends the bytes of a word.
pub fn put(out: &mut Vec<u8>, word: &[u8]) -> Result<(), AllocError>
    ensures { OnOk result (out.new.items ≡ out.old.items ++ word.now) }
{
    out.extend_from_slice(word)
}

fn put_number(out: &mut Vec<u8>, n: u64) -> Result<(), AllocError>
    ensures { OnOk result (out.new.items ≡ out.old.items ++ decimal n) }
{
    let mut buffer = Buffer::new();
    out.extend_from_slice(buffer.format(n).as_bytes())
}

/// Appends a space and a number.
pub fn put_spaced(out: &mut Vec<u8>, n: u64) -> Result<(), AllocError>
    ensures { OnOk result (out.new.items ≡ out.old.items ++ spaced n) }
{
    put(out, b" ")?;
    put_number(out, n)
}

// A hexadecimal digit.
fn digit(d: u8) -> u8
    requires { d < 16 }
    ensures { result ≡ digit d }
{
    if d < 10 { d + 48 } else { d + 87 }
}

fn put_byte(out: &mut Vec<u8>, n: u8) -> Result<(), AllocError>
    ensures { OnOk result (out.new.items ≡ out.old.items ++ byte_digits n) }
{
    out.extend_from_slice(&[digit(n / 16), digit(n % 16)])
}

fn put_sample(out: &mut Vec<u8>, wide: bool, n: u16) -> Result<(), AllocError>
    ensures { OnOk result (out.new.items ≡ out.old.items ++ sample_digits wide n) }
{
    if wide {
        put_byte(out, (n / 256) as u8)?;
        put_byte(out, (n % 256) as u8)
    } else {
        put_byte(out, (n % 256) as u8)
    }
}

/// The number of a sample.
pub fn number_of<T: Pixel>(sample: T) -> u16
    ensures { result ≡ natural (T.number sample) }
{
    sample.to_i32() as u16
}

fn put_bytes(out: &mut Vec<u8>, bytes: &[u8]) -> Result<(), AllocError>
    ensures { OnOk result (out.new.items ≡ out.old.items ++ flat_map byte_digits bytes.now) }
{
    for n in bytes {
        put_byte(out, *n)?;
    }
    Ok(())
}

// A row's line.
#[tactic(auto, unfolding(crate::specs::Report::row_line))]
fn put_row<T: Pixel>(out: &mut Vec<u8>, wide: bool, row: &[T]) -> Result<(), AllocError>
    ensures { OnOk result (out.new.items ≡ out.old.items ++ row_line wide (map T.number row.now)) }
{
    for sample in row {
        put_sample(out, wide, number_of(*sample))?;
    }
    put(out, b"\n")
}

// The lines of a region's rows.
#[tactic(auto, using(crate::proofs::RegionRows::region_steps))]
fn put_rows<T: Pixel>(
    out: &mut Vec<u8>,
    wide: bool,
    region: &PlaneRegion<'_, T>,
) -> Result<(), AllocError>
    ensures { OnOk result (out.new.items
        ≡ out.old.items ++ flat_map (row_line wide) (region_rows T.number region.now)) }
{
    for y in 0..region.rect().height {
        put_row(out, wide, region.row(y))?;
    }
    Ok(())
}

// `plane P` and its rows.
#[tactic(auto, unfolding(crate::specs::Report::plane_text))]
fn put_plane<T: Pixel>(
    out: &mut Vec<u8>,
    wide: bool,
    p: u64,
    region: &PlaneRegion<'_, T>,
) -> Result<(), AllocError>
    ensures { OnOk result (out.new.items
        ≡ out.old.items ++ plane_text wide p (region_rows T.number region.now)) }
{
    put(out, b"plane ")?;
    put_number(out, p)?;
    put(out, b"\n")?;
    put_rows(out, wide, region)
}

// Appends the text of all planes.
#[tactic(auto, using(crate::proofs::RegionRows::planes_steps))]
fn put_planes<T: Pixel>(
    out: &mut Vec<u8>,
    wide: bool,
    planes: &[PlaneRegion<'_, T>],
) -> Result<(), AllocError>
    ensures { OnOk result (out.new.items
        ≡ out.old.items ++ planes_text wide 0 (map (region_rows T.number) planes.now)) }
{
    for (p, region) in planes.iter().enumerate() {
        put_plane(out, wide, p as u64, region)?;
    }
    Ok(())
}

pub fn put_levels(out: &mut Vec<u8>, levels: &[u8]) -> Result<(), AllocError>
    ensures { OnOk result (out.new.items ≡ out.old.items ++ flat_map spaced levels.now) }
{
    for level in levels {
        put_spaced(out, u64::from(*level))?;
    }
    Ok(())
}

// The lines before the planes.
#[tactic(auto, unfolding(crate::specs::Report::head))]
fn head(alloc: Global, r: &Results<'_>) -> Result<Vec<u8>, AllocError>
    ensures { IfOk result (λ text. text.items
        ≡ head r.now.levels r.now.size_bytes r.now.context_tile r.now.group.now) }
{
    let mut out = Vec::new(alloc);
    put(&mut out, b"levels")?;
    put_levels(&mut out, &r.levels)?;
    put(&mut out, b"\nsize_bytes")?;
    put_spaced(&mut out, u64::from(r.size_bytes))?;
    put(&mut out, b"\ncontext_tile")?;
    put_spaced(&mut out, r.context_tile as u64)?;
    put(&mut out, b"\ngroup ")?;
    put_bytes(&mut out, r.group)?;
    put(&mut out, b"\n")?;
    Ok(out)
}

/// The report of these results and of the visible part of each plane.
#[tactic(auto, unfolding(crate::specs::Report::report))]
pub fn report<T: Pixel>(
    alloc: Global,
    results: &Results<'_>,
    planes: &[PlaneRegion<'_, T>],
) -> Result<Vec<u8>, AllocError>
    ensures { IfOk result (λ text. text.items ≡ report (record {
      levels = results.now.levels;
      size_bytes = results.now.size_bytes;
      context_tile = results.now.context_tile;
      group = results.now.group.now;
      wide = results.now.wide;
      planes = map (region_rows T.number) planes.now;
    })) }
{
    let mut out = head(alloc, results)?;
    put_planes(&mut out, results.wide, planes)?;
    put(&mut out, b"end\n")?;
    Ok(out)
}
