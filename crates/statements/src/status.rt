ghost use Rattle.std.specs.Prelude.{◌≡◌};
ghost use Rattle.std.specs.Option.{option_map};
ghost use Rattle.statements.specs.Status.{code_of, message_of, place_of};

/// How a run of the program ended. The statuses and their codes are this product's own.
#[derive(Clone, Copy, Debug, PartialEq, Eq)]
pub enum Status {
    /// The whole input was worked, and nothing in it was refused.
    Done,
    /// The whole input was worked, and something in it was refused.
    Refusals,
    /// The words of the command line aren't of a form that the program has.
    Usage,
    /// An input couldn't be opened, or reading it failed.
    ReadFault,
    /// An output couldn't be opened, or writing it failed.
    WriteFault,
    /// A disk failed.
    DiskFault,
    /// The disks hold no database.
    NotFormatted,
    /// The disk that counts holds what can't be read, from this place on.
    Damaged(u64),
    /// Memory ran out.
    NoMemory,
    /// A line doesn't end within the longest input, 2^28 bytes.
    InputTooLong,
}

impl Status {
    /// The exit status of the process.
    pub fn code(self) -> u8
        ensures { result ≡ code_of self }
    {
        match self {
            Status::Done => 0,
            Status::Refusals => 4,
            Status::Usage => 8,
            Status::ReadFault => 12,
            Status::WriteFault => 16,
            Status::DiskFault => 20,
            Status::NotFormatted | Status::Damaged(_) => 24,
            Status::NoMemory => 28,
            Status::InputTooLong => 36,
        }
    }

    /// The line for standard error, without its line feed: none where the whole input was worked.
    pub fn message(self) -> Option<&'static str>
        ensures { option_map (λ text. text.now) result ≡ message_of self }
    {
        match self {
            Status::Done | Status::Refusals => None,
            Status::Usage => Some("USAGE"),
            Status::ReadFault => Some("READ FAULT"),
            Status::WriteFault => Some("WRITE FAULT"),
            Status::DiskFault => Some("DISK FAULT"),
            Status::NotFormatted => Some("NOT FORMATTED"),
            Status::Damaged(_) => Some("DAMAGED AT"),
            Status::NoMemory => Some("NO MEMORY"),
            Status::InputTooLong => Some("INPUT TOO LONG"),
        }
    }

    /// The place that stands behind the message, where it names one.
    pub fn place(self) -> Option<u64>
        ensures { result ≡ place_of self }
    {
        match self {
            Status::Damaged(place) => Some(place),
            _ => None,
        }
    }
}
