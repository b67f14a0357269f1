ghost use Rattle.std.specs.Prelude.{◌≡◌, ◌≢◌, ◌<◌};
ghost use Rattle.av1_block.specs.Sides.{ref_number};

/// A reference of a block: none, the frame itself, or one of seven others (section 6.10.24).
#[allow(non_camel_case_types)]
#[derive(Clone, Copy, Debug, PartialEq, Eq)]
pub enum RefType {
    INTRA_FRAME,
    LAST_FRAME,
    LAST2_FRAME,
    LAST3_FRAME,
    GOLDEN_FRAME,
    BWDREF_FRAME,
    ALTREF2_FRAME,
    ALTREF_FRAME,
    NONE_FRAME,
}

impl RefType {
    /// 0 for the frame itself to 7 for `ALTREF_FRAME`.
    pub fn to_index(self) -> usize
        requires { self ≢ RefType.NONE_FRAME }
        ensures value { result ≡ ref_number self }
        ensures below { result < 8 }
    {
        match self {
            RefType::INTRA_FRAME => 0,
            RefType::LAST_FRAME => 1,
            RefType::LAST2_FRAME => 2,
            RefType::LAST3_FRAME => 3,
            RefType::GOLDEN_FRAME => 4,
            RefType::BWDREF_FRAME => 5,
            RefType::ALTREF2_FRAME => 6,
            RefType::ALTREF_FRAME => 7,
            RefType::NONE_FRAME => unreachable!(),
        }
    }
}
