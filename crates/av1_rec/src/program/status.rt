ghost use Rattle.std.specs.Prelude.{◌≡◌};
ghost use Rattle.av1_rec.specs.Statuses.{status_code};

use av1_frame::GroupError;

/// How a run ends.
#[derive(Clone, Copy, Debug, PartialEq, Eq)]
pub enum Status {
    /// The input was read to its end and the report written.
    Done,
    OutOfMemory,
    /// The words are no command.
    Usage,
    /// A read failed.
    ReadFault,
    /// The text has more than 2^28 bytes.
    TooLong,
    /// The text isn't of the grammar: its first wrong line.
    Syntax { line: u32 },
    /// The header is right and has no tiling.
    NoTiling,
    /// The recorded results are refused. The error is never `OutOfMemory`.
    Group(GroupError),
    /// A write failed. A part was written.
    WriteFault,
}

impl Status {
    /// The number that the program ends with, 0 to 8.
    pub fn code(&self) -> u8
        ensures { result ≡ status_code self.now }
    {
        match self {
            Status::Done => 0,
            Status::OutOfMemory => 1,
            Status::Usage => 2,
            Status::ReadFault => 3,
            Status::TooLong => 4,
            Status::Syntax { line: _ } => 5,
            Status::NoTiling => 6,
            Status::Group(_) => 7,
            Status::WriteFault => 8,
        }
    }
}
