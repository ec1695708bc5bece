//! The statuses of a run.

ghost use Rattle.std.specs.Prelude.{◌≡◌};
ghost use Rattle.cli.specs.Status.{number_of};

/// The status of a run.
#[derive(Clone, Copy, Debug, PartialEq, Eq)]
pub enum Status {
    /// All output is written.
    Done,
    /// The input is refused.
    Refused,
    /// The words are no command.
    Usage,
    /// Memory ran out.
    Memory,
    /// Reading the input failed.
    ReadFault,
    /// Writing the output failed.
    WriteFault,
}

impl Status {
    /// The exit code: 0 to 5, in the order of the variants.
    pub fn number(self) -> u8
        ensures { result ≡ number_of self }
    {
        match self {
            Status::Done => 0,
            Status::Refused => 1,
            Status::Usage => 2,
            Status::Memory => 3,
            Status::ReadFault => 4,
            Status::WriteFault => 5,
        }
    }
}
