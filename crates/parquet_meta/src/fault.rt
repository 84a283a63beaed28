//! Why a part could not be read.

ghost use Rattle.std.specs.Prelude.{◌≡◌, Bool, true, false};
ghost use Rattle.parquet_meta.specs.declared.fault.Fault.TheVariants as faults;

use columns_core::{Error, Part};
use parquet_base::Unspelled;
use std::alloc::{AllocError, AllocFailed, Global};

#[derive(Clone, Copy, Debug, PartialEq, Eq)]
pub(crate) enum Fault {
    /// The bytes spell nothing that is wanted here.
    Unspelled,
    OutOfMemory,
}

impl Fault {
    ghost use Rattle.std.specs.Prelude.{◌≡◌};
    ghost use Rattle.parquet_meta.specs.Fault.{error_of};

    /// What a caller is told of a fault in this part of the file.
    pub fn at(self, part: Part) -> Error
        ensures { result ≡ error_of part self }
    {
        match self {
            Fault::Unspelled => Error::ExternalFormat(part),
            Fault::OutOfMemory => Error::OutOfMemory,
        }
    }
}

impl From<Unspelled> for Fault {
    ghost from_gives = { λ _ e. e ≡ faults.Unspelled };

    fn from(_e: Unspelled) -> Fault {
        Fault::Unspelled
    }
}

impl From<AllocError> for Fault {
    ghost from_gives = { λ _ e. e ≡ faults.OutOfMemory };

    fn from(_e: AllocError) -> Fault {
        Fault::OutOfMemory
    }
}

impl<T: Drop> From<AllocFailed<T>> for Fault {
    ghost from_gives = { λ _ e. e ≡ faults.OutOfMemory };

    fn from(_e: AllocFailed<T>) -> Fault {
        Fault::OutOfMemory
    }
}

/// Where a reader takes memory, if it takes any.
pub(crate) trait Memory: Copy {
    /// Want of memory may be answered.
    ghost may_want: { Bool };
}

impl Memory for Global {
    ghost may_want = { true };
}

/// What readers are passed that take no memory.
#[derive(Clone, Copy)]
pub(crate) struct NoMemory;

impl Memory for NoMemory {
    ghost may_want = { false };
}
