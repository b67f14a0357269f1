//! The bytes of a tile group.
ghost use Rattle.std.specs.Prelude.{◌≡◌, ◌+◌, ◌-◌, ◌*◌, ◌^◌, ◌<◌, ◌≤◌, ◌⊎◌, map, length, All, ◌++◌, vec_len, IfOk, OnOk, IfSome, IfNone};
ghost use Rattle.std.specs.List.{flat_map};
ghost use Rattle.arrayvec.specs.ArrayVec.{array_vec_len};
ghost use Rattle.av1_frame.specs.Framing.{CanFrame, framed_with, little_endian, with_size};

use arrayvec::ArrayVec;
use av1_plane::OutOfMemory;
use av1_tiling::TilingInfo;
use std::alloc::Global;

/// The length of a tile as the bitstream counts it: `None` for a tile without bytes, and for one of
/// 2^32 bytes or more.
pub fn tile_len(len: usize) -> Option<u32>
    ensures none { IfNone result ((len ≡ 0) ⊎ (2 ^ 32 ≤ len)) }
    ensures some { IfSome result (λ n. (n ≡ len) × (1 ≤ n)) }
{
    match u32::try_from(len) {
        Ok(len) if len != 0 => Some(len),
        _ => None,
    }
}

/// The bytes of a tile group (AV1 specification, section 5.11.1): one byte of flags before several
/// tiles, then the tiles, each but the last behind its size less one in `max_tile_size_bytes` bytes.
pub fn build_raw_tile_group(
    alloc: Global,
    ti: &TilingInfo,
    raw_tiles: &[Vec<u8>],
    max_tile_size_bytes: u32,
) -> Result<Vec<u8>, OutOfMemory>
    requires tiles { length raw_tiles.now ≡ ti.now.cols * ti.now.rows }
    requires framable { CanFrame max_tile_size_bytes (map (λ tile. tile.items) raw_tiles.now) }
    requires size_bytes { (1 ≤ max_tile_size_bytes) × (max_tile_size_bytes ≤ 4) }
    ensures { IfOk result (λ group. group.items
        ≡ framed_with max_tile_size_bytes (map (λ tile. tile.items) raw_tiles.now)) }
{
    let mut group = Vec::new(alloc);
    let Some((last, others)) = raw_tiles.split_last() else {
        return Ok(group);
    };
    if ti.tile_count() > 1 {
        group.push(0)?;
    }
    extend_sized(&mut group, others, max_tile_size_bytes)?;
    group.extend_from_slice(last)?;
    Ok(group)
}

// Appends tiles, each behind its size less one.
fn extend_sized(group: &mut Vec<u8>, tiles: &[Vec<u8>], size_bytes: u32) -> Result<(), OutOfMemory>
    requires filled { All (λ tile. 1 ≤ length tile.items) tiles.now }
    requires size_bytes { size_bytes ≤ 4 }
    ensures { OnOk result (group.new.items
        ≡ group.old.items ++ flat_map (with_size size_bytes) (map (λ tile. tile.items) tiles.now)) }
{
    for tile in tiles {
        group.extend_from_slice(&le_bytes(tile.len() - 1, size_bytes))?;
        group.extend_from_slice(tile)?;
    }
    Ok(())
}

// A number in `count` bytes, the lowest first.
fn le_bytes(number: usize, count: u32) -> ArrayVec<u8, 4>
    requires { count ≤ 4 }
    ensures { result.items ≡ little_endian count number }
{
    let mut bytes = ArrayVec::new();
    let mut rest = number;
    for _ in 0..count {
        bytes.push((rest % 256) as u8);
        rest /= 256;
    }
    bytes
}
