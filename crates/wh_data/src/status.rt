//! How a run of the program ends.
ghost use Rattle.std.specs.Prelude.{◌≡◌};
ghost use Rattle.wh_data.specs.Statuses.{status_number};

/// How a run ended.
#[derive(Clone, Copy, PartialEq, Eq, Debug)]
pub enum Status {
    /// An answer is written, other than a no, an invalid or an undecided one.
    Done,
    /// A no or an invalid answer is written.
    No,
    /// A refusal is written.
    Refused,
    /// An undecided answer is written.
    Undecided,
    /// The source failed. Nothing is written.
    ReadFault,
    /// The sink failed. A part of the text is written.
    WriteFault,
    /// There was no memory. Nothing is written.
    OutOfMemory,
}

impl Status {
    /// The number of the status, from 0 for `Done` to 6 for `OutOfMemory`.
    pub fn number(self) -> u8
        ensures { result ≡ status_number self }
    {
        match self {
            Status::Done => 0,
            Status::No => 1,
            Status::Refused => 2,
            Status::Undecided => 3,
            Status::ReadFault => 4,
            Status::WriteFault => 5,
            Status::OutOfMemory => 6,
        }
    }
}
