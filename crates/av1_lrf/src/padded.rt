ghost use Rattle.std.specs.Prelude.{◌≡◌, ◌+◌, pos, neg_ℤ, ◌<◌, ◌≤◌, ◌^◌, ◌<ℤ◌, length};
ghost use Rattle.av1_lrf.specs.Padded.{padded_row, far_place};

use std::iter::FusedIterator;
use std::marker::Model;

/// The samples of a row from a place on, seen as the list of the samples that are left. Past an end of
/// the row stands its first or its last sample.
#[derive(Drop)]
pub struct HorzPaddedIter<'a, T> {
    row: &'a [T],
    // counts from 2 ^ 33 before the row
    at: usize,
    left: usize,
}

impl<'a, T> Model for HorzPaddedIter<'a, T> {
    ghost use Rattle.std.specs.Prelude.{List, ◌+◌, ◌<◌, ◌≤◌, ◌^◌, length};
    ghost use Rattle.av1_lrf.specs.Padded.{padded_row};

    ghost Value = { List T };

    ghost view = { λ it. padded_row it.row.now it.at it.left };

    ghost invariant = { λ it. (0 < length it.row.now) × (it.at + it.left ≤ 2 ^ 34) };
}

// The place of a signed position.
fn place_of(start: isize) -> usize
    requires low { neg_ℤ (pos (2 ^ 32)) <ℤ start }
    requires high { start <ℤ pos (2 ^ 32) }
    ensures value { result ≡ far_place start }
    ensures near { result ≤ 2 ^ 33 + 2 ^ 32 }
{
    (start + (1 << 33)) as usize
}

impl<'a, T> HorzPaddedIter<'a, T> {
    /// `width` samples from position `start` on.
    pub fn new(row: &'a [T], start: isize, width: usize) -> HorzPaddedIter<'a, T>
        requires some { 0 < length row.now }
        requires low { neg_ℤ (pos (2 ^ 32)) <ℤ start }
        requires high { start <ℤ pos (2 ^ 32) }
        requires width { width ≤ 2 ^ 32 }
        ensures { result ≡ padded_row row.now (far_place start) width }
    {
        HorzPaddedIter {
            row,
            at: place_of(start),
            left: width,
        }
    }
}

impl<'a, T> Iterator for HorzPaddedIter<'a, T> {
    ghost use Rattle.std.specs.Iterator.{YieldsFirstBy, item_count, at_most, UpTo};
    ghost use Rattle.std.specs.Iterator.SizeHint.{IsWithinCount};
    ghost use Rattle.std.specs.Prelude.{◌≡◌, length, Some, IfSome};

    type Item = &'a T;

    ghost next_gives = { YieldsFirstBy (λ x. x.now) (λ left. left) };

    ghost remaining = { item_count (λ left. left) };

    #[tactic(auto, using(crate::proofs::PaddedFacts::steps))]
    fn next(&mut self) -> Option<&'a T> {
        if self.left == 0 {
            return None;
        }
        let i = (self.at.max(1 << 33) - (1 << 33)).min(self.row.len() - 1);
        let x = &self.row[i];
        self.at += 1;
        self.left -= 1;
        Some(x)
    }

    #[tactic(auto, using(crate::proofs::PaddedFacts::steps))]
    fn size_hint(&self) -> (usize, Option<usize>)
        ensures lower { IsWithinCount result.0 (at_most (length self.now)) }
        ensures upper { IfSome result.1 (UpTo (at_most (length self.now))) }
        ensures exact { result ≡ (length self.now, Some (length self.now)) }
    {
        (self.left, Some(self.left))
    }
}

impl<'a, T> ExactSizeIterator for HorzPaddedIter<'a, T> {
    #[tactic(auto, using(crate::proofs::PaddedFacts::steps))]
    fn len(&self) -> usize {
        self.left
    }
}

impl<'a, T> FusedIterator for HorzPaddedIter<'a, T> {}
