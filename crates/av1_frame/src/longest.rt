//! What the lengths of a group's tiles decide.
ghost use Rattle.std.specs.Prelude.{◌≡◌, map};
ghost use Rattle.av1_frame.specs.Framing.{greatest, longest};

/// The greatest length of tiles, and the last tile with this length.
#[derive(Clone, Copy)]
pub(crate) struct Longest {
    pub tile: usize,
    pub len: usize,
}

/// The last of the longest tiles.
pub(crate) fn longest_tile(tiles: &[Vec<u8>]) -> Longest
    ensures tile { result.tile ≡ longest (map (λ tile. tile.items) tiles.now) }
    ensures len { result.len ≡ greatest (map (λ tile. tile.items) tiles.now) }
{
    let mut longest = Longest { tile: 0, len: 0 };
    for (n, tile) in tiles.iter().enumerate() {
        if tile.len() >= longest.len {
            longest = Longest {
                tile: n,
                len: tile.len(),
            };
        }
    }
    longest
}
