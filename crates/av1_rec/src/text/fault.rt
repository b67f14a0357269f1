ghost use Rattle.std.specs.Prelude.{◌≡◌, length};
ghost use Rattle.av1_rec.specs.declared.text.fault.TextError.TheVariants.{OutOfMemory};

use std::alloc::{AllocError, AllocFailed};

/// Why a text isn't read to its end.
#[derive(Clone, Copy, Debug, PartialEq, Eq)]
pub enum Fault {
    /// A line is wrong: the first one, in which a part begins with so many bytes of the text left.
    Wrong(usize),
    /// The header has no tiling.
    NoTiling,
}

/// Why a text gave nothing.
#[derive(Clone, Copy, Debug, PartialEq, Eq)]
pub enum TextError {
    OutOfMemory,
    Fault(Fault),
}

impl From<AllocError> for TextError {
    ghost from_gives = { λ _ e. e ≡ OutOfMemory };

    fn from(_e: AllocError) -> TextError {
        TextError::OutOfMemory
    }
}

impl From<av1_plane::OutOfMemory> for TextError {
    ghost from_gives = { λ _ e. e ≡ OutOfMemory };

    fn from(_e: av1_plane::OutOfMemory) -> TextError {
        TextError::OutOfMemory
    }
}

impl<T: Drop> From<AllocFailed<T>> for TextError {
    ghost from_gives = { λ _ e. e ≡ OutOfMemory };

    fn from(_e: AllocFailed<T>) -> TextError {
        TextError::OutOfMemory
    }
}

/// The fault of a line, a part of which begins here.
pub fn wrong(text: &[u8]) -> TextError
    ensures { result ≡ TextError.Fault (Fault.Wrong (length text.now)) }
{
    TextError::Fault(Fault::Wrong(text.len()))
}
