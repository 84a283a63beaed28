//! Numbers that are kept, widened or taken as days.
ghost use Rattle.std.specs.Prelude.{true};

use crate::bulk::{extend_deltas, extend_plain};
use crate::{Convert, ConvertAll};
use columns_core::Error;

/// Numbers as they are.
#[derive(Clone, Copy, Debug, PartialEq, Eq)]
pub struct Keep;

impl ConvertAll<i32, i32> for Keep {
    ghost use Rattle.flat_values.specs.Conversion.{Keep as Kept};

    ghost rule = { λ _. Kept };

    fn apply(&self, x: i32) -> i32 {
        x
    }
}

impl Convert<i32, i32> for Keep {
    ghost use Rattle.flat_values.specs.Conversion.{Keep as Kept};

    ghost rule = { λ _. Kept };

    fn convert(&self, x: i32) -> Result<i32, Error> {
        Ok(ConvertAll::<i32, i32>::apply(self, x))
    }

    fn extend_plain(&self, values: &mut Vec<i32>, pieces: &[[u8; 4]]) -> Result<(), Error> {
        extend_plain::<i32, i32, Keep>(values, *self, pieces)?;
        Ok(())
    }

    fn extend_deltas(&self, values: &mut Vec<i32>, numbers: &[i64]) -> Result<(), Error> {
        extend_deltas::<i32, i32, Keep>(values, *self, numbers)?;
        Ok(())
    }
}

impl ConvertAll<i64, i64> for Keep {
    ghost use Rattle.flat_values.specs.Conversion.{Keep as Kept};

    ghost rule = { λ _. Kept };

    fn apply(&self, x: i64) -> i64 {
        x
    }
}

impl Convert<i64, i64> for Keep {
    ghost use Rattle.flat_values.specs.Conversion.{Keep as Kept};

    ghost rule = { λ _. Kept };

    fn convert(&self, x: i64) -> Result<i64, Error> {
        Ok(ConvertAll::<i64, i64>::apply(self, x))
    }

    fn extend_plain(&self, values: &mut Vec<i64>, pieces: &[[u8; 8]]) -> Result<(), Error> {
        extend_plain::<i64, i64, Keep>(values, *self, pieces)?;
        Ok(())
    }

    fn extend_deltas(&self, values: &mut Vec<i64>, numbers: &[i64]) -> Result<(), Error> {
        extend_deltas::<i64, i64, Keep>(values, *self, numbers)?;
        Ok(())
    }
}

/// Numbers of more bits.
#[derive(Clone, Copy, Debug, PartialEq, Eq)]
pub struct Widen;

impl ConvertAll<i32, i128> for Widen {
    ghost use Rattle.flat_values.specs.Conversion.{Keep as Kept};

    ghost rule = { λ _. Kept };

    fn apply(&self, x: i32) -> i128 {
        x as i128
    }
}

impl Convert<i32, i128> for Widen {
    ghost use Rattle.flat_values.specs.Conversion.{Keep as Kept};

    ghost rule = { λ _. Kept };

    fn convert(&self, x: i32) -> Result<i128, Error> {
        Ok(ConvertAll::<i32, i128>::apply(self, x))
    }

    fn extend_plain(&self, values: &mut Vec<i128>, pieces: &[[u8; 4]]) -> Result<(), Error> {
        extend_plain::<i32, i128, Widen>(values, *self, pieces)?;
        Ok(())
    }

    fn extend_deltas(&self, values: &mut Vec<i128>, numbers: &[i64]) -> Result<(), Error> {
        extend_deltas::<i32, i128, Widen>(values, *self, numbers)?;
        Ok(())
    }
}

impl ConvertAll<i64, i128> for Widen {
    ghost use Rattle.flat_values.specs.Conversion.{Keep as Kept};

    ghost rule = { λ _. Kept };

    fn apply(&self, x: i64) -> i128 {
        x as i128
    }
}

impl Convert<i64, i128> for Widen {
    ghost use Rattle.flat_values.specs.Conversion.{Keep as Kept};

    ghost rule = { λ _. Kept };

    fn convert(&self, x: i64) -> Result<i128, Error> {
        Ok(ConvertAll::<i64, i128>::apply(self, x))
    }

    fn extend_plain(&self, values: &mut Vec<i128>, pieces: &[[u8; 8]]) -> Result<(), Error> {
        extend_plain::<i64, i128, Widen>(values, *self, pieces)?;
        Ok(())
    }

    fn extend_deltas(&self, values: &mut Vec<i128>, numbers: &[i64]) -> Result<(), Error> {
        extend_deltas::<i64, i128, Widen>(values, *self, numbers)?;
        Ok(())
    }
}

/// Days as milliseconds.
#[derive(Clone, Copy, Debug, PartialEq, Eq)]
pub struct DaysToMillis;

impl ConvertAll<i32, i64> for DaysToMillis {
    ghost use Rattle.flat_values.specs.Conversion.{Scale as Scaled};

    ghost rule = { λ _. Scaled 86400000 true };

    fn apply(&self, x: i32) -> i64 {
        x as i64 * 86_400_000
    }
}

impl Convert<i32, i64> for DaysToMillis {
    ghost use Rattle.flat_values.specs.Conversion.{Scale as Scaled};

    ghost rule = { λ _. Scaled 86400000 true };

    fn convert(&self, x: i32) -> Result<i64, Error> {
        Ok(ConvertAll::<i32, i64>::apply(self, x))
    }

    fn extend_plain(&self, values: &mut Vec<i64>, pieces: &[[u8; 4]]) -> Result<(), Error> {
        extend_plain::<i32, i64, DaysToMillis>(values, *self, pieces)?;
        Ok(())
    }

    fn extend_deltas(&self, values: &mut Vec<i64>, numbers: &[i64]) -> Result<(), Error> {
        extend_deltas::<i32, i64, DaysToMillis>(values, *self, numbers)?;
        Ok(())
    }
}
