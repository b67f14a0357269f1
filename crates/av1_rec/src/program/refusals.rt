ghost use Rattle.std.specs.Prelude.{◌≡◌, ◌≤◌, ◌^◌, ◌==◌, length, IfOk};
ghost use Rattle.std.specs.List.{count_by};
ghost use Rattle.av1_rec.specs.Statuses.{tile_line, group_line, syntax_line, refusal_line};
ghost use Rattle.av1_rec.specs.Text.{line_number};

use crate::program::status::Status;
use av1_frame::GroupError;
use itoa::Buffer;
use std::alloc::{AllocError, Global};

fn copy(alloc: Global, word: &[u8]) -> Result<Vec<u8>, AllocError>
    ensures { IfOk result (λ v. v.items ≡ word.now) }
{
    Vec::from_slice(alloc, word)
}

// A word and the tile that is at fault.
#[tactic(auto, unfolding(crate::specs::Statuses::tile_line))]
fn tile_line(alloc: Global, word: &[u8], tile: usize) -> Result<Vec<u8>, AllocError>
    ensures { IfOk result (λ v. v.items ≡ tile_line word.now tile) }
{
    let mut out = copy(alloc, b"refused ")?;
    out.extend_from_slice(word)?;
    out.extend_from_slice(b" tile ")?;
    let mut buffer = Buffer::new();
    out.extend_from_slice(buffer.format(tile).as_bytes())?;
    out.extend_from_slice(b"\n")?;
    Ok(out)
}

// The line of a group's error.
#[tactic(auto, unfolding(crate::specs::Statuses::group_line))]
fn group_line(alloc: Global, error: GroupError) -> Result<Vec<u8>, AllocError>
    ensures { IfOk result (λ v. v.items ≡ group_line error) }
{
    match error {
        GroupError::OutOfMemory => Ok(Vec::new(alloc)),
        GroupError::Coder { tile } => tile_line(alloc, b"coder", tile),
        GroupError::EmptyTile { tile } => tile_line(alloc, b"empty", tile),
        GroupError::TileTooLarge { tile } => tile_line(alloc, b"large", tile),
        GroupError::BadSample { tile } => tile_line(alloc, b"sample", tile),
        GroupError::BadBlock { tile } => tile_line(alloc, b"block", tile),
        GroupError::BadUnit { tile } => tile_line(alloc, b"unit", tile),
    }
}

#[tactic(auto, unfolding(crate::specs::Statuses::syntax_line))]
fn syntax_line(alloc: Global, line: u32) -> Result<Vec<u8>, AllocError>
    ensures { IfOk result (λ v. v.items ≡ syntax_line line) }
{
    let mut out = copy(alloc, b"refused syntax line ")?;
    let mut buffer = Buffer::new();
    out.extend_from_slice(buffer.format(line).as_bytes())?;
    out.extend_from_slice(b"\n")?;
    Ok(out)
}

/// The line that a refusal prints. The other ends print none.
#[tactic(auto, unfolding(crate::specs::Statuses::refusal_line))]
pub fn refusal_line(alloc: Global, status: Status) -> Result<Vec<u8>, AllocError>
    ensures { IfOk result (λ v. v.items ≡ refusal_line status) }
{
    match status {
        Status::Usage => copy(alloc, b"refused usage\n"),
        Status::ReadFault => copy(alloc, b"refused read\n"),
        Status::TooLong => copy(alloc, b"refused too long\n"),
        Status::Syntax { line } => syntax_line(alloc, line),
        Status::NoTiling => copy(alloc, b"refused no tiling\n"),
        Status::Group(error) => group_line(alloc, error),
        Status::Done | Status::OutOfMemory | Status::WriteFault => Ok(Vec::new(alloc)),
    }
}

/// A refusal and its line.
pub fn refused(alloc: Global, status: Status) -> Result<(Status, Vec<u8>), AllocError>
    ensures status { IfOk result (λ x. x.0 ≡ status) }
    ensures line { IfOk result (λ x. x.1.items ≡ refusal_line status) }
{
    Ok((status, refusal_line(alloc, status)?))
}

fn line_feeds(text: &[u8]) -> usize
    ensures value { result ≡ count_by (λ c. c == 10) text.now }
    ensures within { result ≤ length text.now }
{
    let mut count = 0;
    for c in text {
        if *c == b'\n' {
            count += 1;
        }
    }
    count
}

/// The number of the line of which a part begins where `left` bytes of the text are left.
#[tactic(auto, unfolding(crate::specs::Text::line_number))]
pub fn line_number(text: &[u8], left: usize) -> u32
    requires { length text.now ≤ 2 ^ 28 }
    ensures { result ≡ line_number text.now left }
{
    let (before, _) = text.split_at(text.len().saturating_sub(left));
    (line_feeds(before) + 1) as u32
}
