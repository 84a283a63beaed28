//! How a run ends.
ghost use Rattle.std.specs.Prelude.{◌≡◌, codes};
ghost use Rattle.pq_common.specs.Endings.{status_number, status_of_error, text_for};

use columns_core::Error;

/// One for each ending.
#[derive(Clone, Copy, Debug, PartialEq, Eq)]
pub enum Status {
    /// All was written.
    Done,
    /// The words spell no request.
    Words,
    /// The request does not fit the file.
    Argument,
    /// A part of the request or of the file is not carried.
    NotCarried,
    /// A part of the file that was looked at is damaged.
    Damaged,
    /// A text is not UTF-8, or a key is past its dictionary.
    NotValid,
    /// A value does not fit the type that was asked for.
    Range,
    /// A read failed.
    Reading,
    /// A write failed.
    Writing,
    /// There was not enough memory.
    Memory,
}

impl Status {
    /// The exit status of the program.
    pub fn number(&self) -> u8
        ensures { result ≡ status_number self.now }
    {
        match self {
            Status::Done => 0,
            Status::Words => 2,
            Status::Argument => 3,
            Status::NotCarried => 4,
            Status::Damaged => 5,
            Status::NotValid => 6,
            Status::Range => 7,
            Status::Reading => 8,
            Status::Writing => 9,
            Status::Memory => 10,
        }
    }
}

/// How a run ends that an error ends.
pub fn status_of(error: &Error) -> Status
    ensures { result ≡ status_of_error error.now }
{
    match error {
        Error::InvalidArgumentError(_) => Status::Argument,
        Error::NotYetImplemented(_) => Status::NotCarried,
        Error::ExternalFormat(_) => Status::Damaged,
        Error::OutOfSpec(_) => Status::NotValid,
        Error::Overflow => Status::Range,
        Error::Io => Status::Reading,
        Error::OutOfMemory => Status::Memory,
    }
}

/// What a tool says of a run that ended so; of faulty words, how it is used.
pub fn tool_text(status: Status, usage: &'static str) -> &'static str
    ensures { result.now ≡ text_for usage.now status }
{
    match status {
        Status::Done => "ok",
        Status::Words => usage,
        Status::Argument => "the request does not fit the file",
        Status::NotCarried => "not carried",
        Status::Damaged => "the file is damaged",
        Status::NotValid => "a text or key is not valid",
        Status::Range => "a value is out of range",
        Status::Reading => "reading failed",
        Status::Writing => "writing failed",
        Status::Memory => "out of memory",
    }
}

/// What `pqscan` says of a run that ended so.
pub fn status_text(status: Status) -> &'static str
    ensures { let usage = codes "usage: pqscan FILE ITEM... [--chunk N] [--limit N] [--summary]" in
        result.now ≡ text_for usage status }
{
    tool_text(
        status,
        "usage: pqscan FILE ITEM... [--chunk N] [--limit N] [--summary]",
    )
}
