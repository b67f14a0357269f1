//! The rows that a stripe's filters read, one after another.
ghost use Rattle.std.specs.Prelude.{◌≡◌, ◌+◌, ◌<◌, ◌≤◌, ◌^◌, length};
ghost use Rattle.av1_lrf.specs.Rows.{HasShape};

use crate::rows::{Extent, source_row};
use av1_plane::{Pixel, Plane};
use std::iter::FusedIterator;
use std::marker::Model;

/// The rows of a stripe, three more above it and three below, seen as the list of those that are
/// left.
#[derive(Drop)]
pub struct VertPaddedIter<'a, T> {
    cdeffed: &'a Plane<T>,
    deblocked: &'a Plane<T>,
    extent: Extent,
    // counts from 3 above the picture
    at: usize,
    left: usize,
}

impl<'a, T> Model for VertPaddedIter<'a, T> {
    ghost use Rattle.std.specs.Prelude.{List};
    ghost use Rattle.av1_lrf.specs.Padded.{stripe_rows, IsNearStripe};

    ghost Value = { List (List T) };

    ghost view = { λ it. stripe_rows it.cdeffed.now it.deblocked.now it.extent it.at it.left };

    ghost invariant = { λ it.
        IsNearStripe it.cdeffed.now it.deblocked.now it.extent it.at it.left };
}

impl<'a, T: Pixel> VertPaddedIter<'a, T> {
    ghost use Rattle.av1_lrf.specs.Padded.{stripe_rows};

    /// The rows for the stripe of `stripe_h` rows from row `stripe_y` on, `crop_w` samples each:
    /// two rows of the deblocked plane on each side of it, where the picture, which has `crop_h`
    /// rows, goes on there; else the nearest row again. The stripe lies in the picture.
    pub fn new(
        cdeffed: &'a Plane<T>,
        deblocked: &'a Plane<T>,
        stripe_y: usize,
        stripe_h: usize,
        crop_w: usize,
        crop_h: usize,
    ) -> VertPaddedIter<'a, T>
        requires enhanced { HasShape crop_w crop_h cdeffed.now }
        requires shape { deblocked.now.cfg ≡ cdeffed.now.cfg }
        requires some { 0 < stripe_h }
        requires inside { stripe_y + stripe_h ≤ crop_h }
        ensures { result ≡ stripe_rows cdeffed.now deblocked.now (record {
          width = crop_w;
          height = crop_h;
          start = stripe_y;
          stop = stripe_y + stripe_h;
        }) stripe_y (stripe_h + 6) }
    {
        let extent = Extent {
            width: crop_w,
            height: crop_h,
            start: stripe_y,
            stop: stripe_y + stripe_h,
        };
        VertPaddedIter {
            cdeffed,
            deblocked,
            extent,
            at: stripe_y,
            left: stripe_h + 6,
        }
    }
}

impl<'a, T: Pixel> Iterator for VertPaddedIter<'a, T> {
    ghost use Rattle.std.specs.Iterator.{YieldsFirstBy, item_count, at_most, UpTo};
    ghost use Rattle.std.specs.Iterator.SizeHint.{IsWithinCount};
    ghost use Rattle.std.specs.Prelude.{Some, IfSome};

    type Item = &'a [T];

    ghost next_gives = { YieldsFirstBy (λ row. row.now) (λ left. left) };

    ghost remaining = { item_count (λ left. left) };

    #[tactic(auto, using(crate::proofs::PaddedFacts::stripe_steps))]
    fn next(&mut self) -> Option<&'a [T]> {
        if self.left == 0 {
            return None;
        }
        let row = source_row(self.cdeffed, self.deblocked, self.extent, self.at);
        self.at += 1;
        self.left -= 1;
        Some(row)
    }

    #[tactic(auto, using(crate::proofs::PaddedFacts::stripe_steps))]
    fn size_hint(&self) -> (usize, Option<usize>)
        ensures lower { IsWithinCount result.0 (at_most (length self.now)) }
        ensures upper { IfSome result.1 (UpTo (at_most (length self.now))) }
        ensures exact { result ≡ (length self.now, Some (length self.now)) }
    {
        (self.left, Some(self.left))
    }
}

impl<'a, T: Pixel> ExactSizeIterator for VertPaddedIter<'a, T> {
    #[tactic(auto, using(crate::proofs::PaddedFacts::stripe_steps))]
    fn len(&self) -> usize {
        self.left
    }
}

impl<'a, T: Pixel> FusedIterator for VertPaddedIter<'a, T> {}
