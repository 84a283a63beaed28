//! Which items of an array are there.
ghost use Rattle.std.specs.Prelude.{◌≡◌, ◌<◌, length, option_copied, IfOk, IfErr};
ghost use Rattle.columns_core.specs.Causes.{IsWantOfMemory};
ghost use Rattle.std.specs.Option.{ForSome};
ghost use Rattle.columns_core.specs.Masks.{is_there};

use crate::{Bitmap, Error};
use std::alloc::Global;

/// The item at a place is there, by a mask that has that place.
pub(crate) fn is_there(validity: Option<&Bitmap>, i: usize) -> bool
    requires { ForSome (option_copied validity) (λ mask. i < length mask) }
    ensures { result ≡ is_there (option_copied validity.entry) i }
{
    match validity {
        None => true,
        Some(mask) => mask.get_bit(i),
    }
}

pub(crate) fn copy_of_mask(
    alloc: Global,
    validity: Option<&Bitmap>,
) -> Result<Option<Bitmap>, Error>
    ensures ok { IfOk result (λ copy. copy ≡ option_copied validity.entry) }
    ensures err { IfErr result IsWantOfMemory }
{
    match validity {
        None => Ok(None),
        Some(mask) => Ok(Some(mask.try_clone(alloc)?)),
    }
}
