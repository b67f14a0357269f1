ghost use Rattle.std.specs.Prelude.{◌≡◌, ◌≤◌, ◌*◌, ◌+◌, ◌++◌, All, map, length, OnOk, IfOk};
ghost use Rattle.av1_rec.specs.Report.{natural, region_rows};
ghost use Rattle.av1_rec.specs.Summary.{row_sum, rows_sum, sum_line, sum_lines, summary_head, summary, IsSmall};

use crate::program::report::{Results, number_of, put, put_levels, put_spaced};
use av1_plane::{Pixel, PlaneRegion};
use std::alloc::{AllocError, Global};

// The sum of a row's samples.
fn row_sum<T: Pixel>(row: &[T]) -> u64
    requires { length row.now ≤ 65536 }
    ensures value { result ≡ row_sum (map T.number row.now) }
    ensures most { result ≤ 65536 * 65536 }
{
    let mut sum = 0;
    for sample in row {
        sum += u64::from(number_of(*sample));
    }
    sum
}

// The sum of a region's samples.
fn rows_sum<T: Pixel>(region: &PlaneRegion<'_, T>) -> u64
    requires { IsSmall region.now }
    ensures { result ≡ rows_sum (region_rows T.number region.now) }
{
    let mut sum = 0;
    for y in 0..region.rect().height {
        sum += row_sum(region.row(y));
    }
    sum
}

// `sum P S`
#[tactic(auto, unfolding(crate::specs::Summary::sum_line))]
fn put_sum<T: Pixel>(
    out: &mut Vec<u8>,
    p: u64,
    region: &PlaneRegion<'_, T>,
) -> Result<(), AllocError>
    requires { IsSmall region.now }
    ensures { OnOk result (out.new.items
        ≡ out.old.items ++ sum_line p (region_rows T.number region.now)) }
{
    put(out, b"sum")?;
    put_spaced(out, p)?;
    put_spaced(out, rows_sum(region))?;
    put(out, b"\n")
}

// The sums of all planes.
#[tactic(auto, using(crate::proofs::Sums::sums_start))]
fn put_sums<T: Pixel>(out: &mut Vec<u8>, planes: &[PlaneRegion<'_, T>]) -> Result<(), AllocError>
    requires { All (λ r. IsSmall r) planes.now }
    ensures { OnOk result (out.new.items
        ≡ out.old.items ++ sum_lines 0 (map (region_rows T.number) planes.now)) }
{
    for (p, region) in planes.iter().enumerate() {
        put_sum(out, p as u64, region)?;
    }
    Ok(())
}

// The lines before the sums.
#[tactic(auto, unfolding(crate::specs::Summary::summary_head))]
fn summary_head(alloc: Global, r: &Results<'_>) -> Result<Vec<u8>, AllocError>
    ensures { IfOk result (λ text. text.items
        ≡ summary_head r.now.levels r.now.size_bytes r.now.context_tile r.now.group.now) }
{
    let mut out = Vec::new(alloc);
    put(&mut out, b"levels")?;
    put_levels(&mut out, &r.levels)?;
    put(&mut out, b"\nsize_bytes")?;
    put_spaced(&mut out, u64::from(r.size_bytes))?;
    put(&mut out, b"\ncontext_tile")?;
    put_spaced(&mut out, r.context_tile as u64)?;
    put(&mut out, b"\ngroup_len")?;
    put_spaced(&mut out, r.group.len() as u64)?;
    put(&mut out, b"\n")?;
    Ok(out)
}

/// The summary of these results and of the visible part of each plane.
#[tactic(auto, unfolding(crate::specs::Summary::summary))]
pub fn summary<T: Pixel>(
    alloc: Global,
    results: &Results<'_>,
    planes: &[PlaneRegion<'_, T>],
) -> Result<Vec<u8>, AllocError>
    requires { All (λ r. IsSmall r) planes.now }
    ensures { IfOk result (λ text. text.items ≡ summary (record {
      levels = results.now.levels;
      size_bytes = results.now.size_bytes;
      context_tile = results.now.context_tile;
      group = results.now.group.now;
      wide = results.now.wide;
      planes = map (region_rows T.number) planes.now;
    })) }
{
    let mut out = summary_head(alloc, results)?;
    put_sums(&mut out, planes)?;
    put(&mut out, b"end\n")?;
    Ok(out)
}
