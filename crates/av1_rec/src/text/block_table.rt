ghost use Rattle.std.specs.Prelude.{◌≡◌, ℕ, ◌*◌, ◌≤◌, map, length, slice_index_or, IfOk};
ghost use Rattle.av1_rec.specs.Bands.{numbered_block};
ghost use Rattle.av1_rec.specs.BlockTable.{blocks_said};

use crate::text::block_bands::raise_all;
use crate::text::block_line::BlockLine;
use av1_block::Block;
use std::alloc::{AllocError, Global};

// The block of the line with this number, counted from 1, and the default block for 0.
#[tactic(auto, unfolding(crate::specs::Bands::numbered_block, crate::specs::Bands::no_line))]
fn block_of(lines: &[BlockLine], number: usize) -> Block
    ensures { result ≡ numbered_block lines.now number }
{
    if number == 0 || number > lines.len() {
        return Block::default();
    }
    lines[number - 1].block
}

fn blocks_of(
    alloc: Global,
    lines: &[BlockLine],
    numbers: &[usize],
) -> Result<Vec<Block>, AllocError>
    ensures { IfOk result (λ blocks. blocks.items ≡ map (λ n. numbered_block lines.now n) numbers.now) }
{
    let mut blocks = Vec::with_capacity(alloc, numbers.len())?;
    for number in numbers {
        blocks.push(block_of(lines, *number))?;
    }
    Ok(blocks)
}

// The blocks of a tile, where there is a 0 for each.
fn blocks_from(
    alloc: Global,
    numbers: &mut [usize],
    cols: usize,
    rows: usize,
    lines: &[BlockLine],
) -> Result<Vec<Block>, AllocError>
    requires table { length numbers.old ≡ cols * rows }
    requires cols { cols ≤ 16384 }
    requires rows { rows ≤ 16384 }
    requires fresh { (i : ℕ) → slice_index_or numbers.old i 0 ≡ 0 }
    ensures { IfOk result (λ blocks. blocks.items ≡ blocks_said cols rows lines.now) }
{
    raise_all(alloc, numbers, cols, rows, lines)?;
    let blocks = blocks_of(alloc, lines, numbers)?;
    Ok(blocks)
}

/// The blocks of a tile of these sides, row by row, at most 16384 each way: default blocks, in which
/// each line's rectangle is written in order, later lines over earlier ones.
pub fn blocks_said(
    alloc: Global,
    cols: usize,
    rows: usize,
    lines: &[BlockLine],
) -> Result<Vec<Block>, AllocError>
    requires cols { cols ≤ 16384 }
    requires rows { rows ≤ 16384 }
    ensures { IfOk result (λ blocks. blocks.items ≡ blocks_said cols rows lines.now) }
{
    let mut numbers = vec![in alloc; 0usize; cols * rows]?;
    blocks_from(alloc, &mut numbers, cols, rows, lines)
}
