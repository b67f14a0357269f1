//! The tiles in the bytes of a tile group.
ghost use Rattle.std.specs.Prelude.{◌≡◌, ◌+◌, ◌-◌, ◌*◌, ◌^◌, ◌<◌, ◌≤◌, List, ℕ, map, length, take, drop, IfOk, IfSome, IfNone};
ghost use Rattle.av1_frame.specs.Framing.{IsFramedAs, number_of, next_size, parsed, group_tiles};

use av1_plane::OutOfMemory;
use std::alloc::Global;

// The number that these bytes are, the lowest first.
fn number_of(bytes: &[u8]) -> usize
    requires { length bytes.now ≤ 4 }
    ensures value { result ≡ number_of bytes.now }
    ensures bound { result < 256 ^ length bytes.now }
{
    match bytes.split_first() {
        None => 0,
        Some((low, high)) => usize::from(*low) + 256 * number_of(high),
    }
}

// The next tile, which stands behind its size less one, and the bytes behind the tile.
fn split_tile(bytes: &[u8], size_bytes: usize) -> Option<(&[u8], &[u8])>
    requires { size_bytes ≤ 4 }
    ensures none { IfNone result (length bytes.now < size_bytes + next_size size_bytes bytes.now) }
    ensures room { IfSome result (λ parts.
        size_bytes + next_size size_bytes bytes.now ≤ length bytes.now) }
    ensures tile { IfSome result (λ parts.
        parts.0.now ≡ take (next_size size_bytes bytes.now) (drop size_bytes bytes.now)) }
    ensures rest { IfSome result (λ parts.
        parts.1.now ≡ drop (next_size size_bytes bytes.now) (drop size_bytes bytes.now)) }
{
    let (size, rest) = bytes.split_at_checked(size_bytes)?;
    rest.split_at_checked(number_of(size) + 1)
}

// The tiles behind the flags of a group.
fn read_tiles(
    alloc: Global,
    bytes: &[u8],
    tiles: usize,
    size_bytes: usize,
) -> Result<Option<Vec<Vec<u8>>>, OutOfMemory>
    requires tiles { 1 ≤ tiles }
    requires size_bytes { size_bytes ≤ 4 }
    ensures some { IfOk result (λ read. IfSome read (λ list.
        parsed size_bytes (tiles - 1) bytes.now ≡ Some (map (λ tile. tile.items) list.items))) }
    ensures none { IfOk result (λ read. IfNone read
        (parsed size_bytes (tiles - 1) bytes.now ≡ None)) }
{
    let mut list = Vec::new(alloc);
    let mut rest = bytes;
    for _ in 1..tiles {
        let Some((tile, others)) = split_tile(rest, size_bytes) else {
            return Ok(None);
        };
        list.push(Vec::from_slice(alloc, tile)?)?;
        rest = others;
    }
    if rest.is_empty() {
        return Ok(None);
    }
    list.push(Vec::from_slice(alloc, rest)?)?;
    Ok(Some(list))
}

// The tiles of a group of `tiles` tiles.
fn read_group(
    alloc: Global,
    bytes: &[u8],
    tiles: usize,
    size_bytes: usize,
) -> Result<Option<Vec<Vec<u8>>>, OutOfMemory>
    requires tiles { 1 ≤ tiles }
    requires size_bytes { size_bytes ≤ 4 }
    ensures some { IfOk result (λ read. IfSome read (λ list.
        group_tiles size_bytes tiles bytes.now ≡ Some (map (λ tile. tile.items) list.items))) }
    ensures none { IfOk result (λ read. IfNone read
        (group_tiles size_bytes tiles bytes.now ≡ None)) }
{
    if tiles == 1 {
        return read_tiles(alloc, bytes, tiles, size_bytes);
    }
    match bytes.split_first() {
        Some((0, rest)) => read_tiles(alloc, rest, tiles, size_bytes),
        _ => Ok(None),
    }
}

/// The tiles of a tile group of `tiles` tiles, whose sizes take `size_bytes` bytes: the one list that
/// is framed as these bytes, and `None` where there is no such list.
pub fn read_tile_group(
    alloc: Global,
    bytes: &[u8],
    tiles: usize,
    size_bytes: u32,
) -> Result<Option<Vec<Vec<u8>>>, OutOfMemory>
    requires tiles { 1 ≤ tiles }
    requires size_bytes { (1 ≤ size_bytes) × (size_bytes ≤ 4) }
    ensures some { IfOk result (λ read. IfSome read (λ list.
        IsFramedAs size_bytes tiles bytes.now (map (λ tile. tile.items) list.items))) }
    ensures none { IfOk result (λ read. IfNone read
        ((list : List (List ℕ)) → ¬ IsFramedAs size_bytes tiles bytes.now list)) }
{
    read_group(alloc, bytes, tiles, size_bytes as usize)
}
