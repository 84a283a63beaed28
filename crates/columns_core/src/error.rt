//! Why a call refused.

ghost use Rattle.std.specs.Prelude.{◌≡◌};
ghost use Rattle.columns_core.specs.declared.error.Error.TheVariants.{OutOfMemory};

use std::alloc::{AllocError, AllocFailed};
use std::fmt;

/// Where a cause stands.
#[derive(Clone, Copy, Debug, PartialEq, Eq)]
pub enum Part {
    Request,
    Footer,
    Schema,
    Group,
    Column,
    Header,
    Levels,
    Values,
    Dictionary,
    Statistics,
    Index,
    Location,
    Chunk,
}

/// Why a call refused.
#[derive(Clone, Copy, Debug, PartialEq, Eq)]
pub enum Error {
    /// What is asked does not fit the file, or a type or a length does not fit what is handed with it.
    InvalidArgumentError(Part),
    /// A part of the format that is not read: a type, an encoding, a compression.
    NotYetImplemented(Part),
    /// The bytes do not spell what the format says.
    ExternalFormat(Part),
    /// A text that is not UTF-8, or a key that names no entry of its dictionary.
    OutOfSpec(Part),
    /// A value or a length that its type has no room for.
    Overflow,
    /// The source failed.
    Io,
    /// Memory is wanting.
    OutOfMemory,
}

impl Error {
    ghost use Rattle.columns_core.specs.Causes.{error_number};

    /// From 1 to 7, in the order of the variants.
    pub fn number(&self) -> u8
        ensures { result ≡ error_number self.now }
    {
        match self {
            Error::InvalidArgumentError(_) => 1,
            Error::NotYetImplemented(_) => 2,
            Error::ExternalFormat(_) => 3,
            Error::OutOfSpec(_) => 4,
            Error::Overflow => 5,
            Error::Io => 6,
            Error::OutOfMemory => 7,
        }
    }
}

impl fmt::Display for Error {
    fn fmt<W: fmt::Write>(&self, f: &mut fmt::Formatter<W>) -> fmt::Result {
        f.write_str(match self {
            Error::InvalidArgumentError(_) => "the request does not fit the file",
            Error::NotYetImplemented(_) => "not carried",
            Error::ExternalFormat(_) => "the file is damaged",
            Error::OutOfSpec(_) => "a text or key is not valid",
            Error::Overflow => "a value is out of range",
            Error::Io => "reading failed",
            Error::OutOfMemory => "out of memory",
        })
    }
}

impl From<AllocError> for Error {
    ghost from_gives = { λ _ e. e ≡ OutOfMemory };

    fn from(_e: AllocError) -> Error {
        Error::OutOfMemory
    }
}

impl<T: Drop> From<AllocFailed<T>> for Error {
    ghost from_gives = { λ _ e. e ≡ OutOfMemory };

    fn from(_e: AllocFailed<T>) -> Error {
        Error::OutOfMemory
    }
}
