ghost use Rattle.std.specs.Prelude.{◌≡◌, ◌+◌, ◌<◌, ◌≤◌, ◌^◌, IfSome};
ghost use Rattle.av1_tiling.specs.UnitViews.{unit_along, is_last_along, Serves};

/// One side of a view of units: the frame's superblocks along it, the logarithm of a unit's
/// superblocks, and the units of the view.
#[derive(Clone, Copy, Debug)]
pub(crate) struct UnitSide {
    pub superblocks: usize,
    pub shift: usize,
    pub units: usize,
}

impl UnitSide {
    /// The unit that serves superblock `s`: with `stretch` the last one serves all of the frame's
    /// that lie past the view's units.
    #[tactic(auto, unfolding(crate::specs::UnitViews::unit_along))]
    pub(crate) fn unit_along(self, s: usize, stretch: bool) -> Option<usize>
        requires { self.shift ≤ 8 }
        ensures value { result ≡ unit_along self s stretch }
        ensures serves { IfSome result (λ unit. Serves self s unit) }
    {
        let unit = s >> self.shift;
        let past = s < self.superblocks && self.units <= unit;
        if past && !stretch {
            return None;
        }
        let serving = if past { unit.saturating_sub(1) } else { unit };
        if serving < self.units {
            Some(serving)
        } else {
            None
        }
    }

    /// Whether superblock `s` of a tile that begins at the frame's superblock `first` is the last of
    /// its unit, or the last of the frame's.
    pub(crate) fn is_last(self, frame_superblocks: usize, first: usize, s: usize) -> bool
        requires shift { self.shift ≤ 8 }
        requires first { first < 2 ^ 32 }
        requires superblock { s < 2 ^ 32 }
        ensures { result ≡ is_last_along self frame_superblocks first s }
    {
        let ends_unit = s % (1 << self.shift) == (1 << self.shift) - 1;
        ends_unit && s >> self.shift < self.units || first + s + 1 == frame_superblocks
    }
}
