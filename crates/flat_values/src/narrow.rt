//! Numbers of fewer bits.
ghost use Rattle.std.specs.Prelude.{◌≡◌, pos};
ghost use Rattle.flat_values.specs.Conversion.{modulo_bits};

use crate::bulk::{extend_deltas, extend_plain};
use crate::{Convert, ConvertAll};
use columns_core::Error;

/// The low bits of numbers.
#[derive(Clone, Copy, Debug, PartialEq, Eq)]
pub struct Narrow;

impl ConvertAll<i32, u8> for Narrow {
    ghost use Rattle.flat_values.specs.Conversion.{LowUnsigned};

    ghost rule = { λ _. LowUnsigned 8 };

    fn apply(&self, x: i32) -> u8 {
        low_byte(x)
    }
}

impl Convert<i32, u8> for Narrow {
    ghost use Rattle.flat_values.specs.Conversion.{LowUnsigned};

    ghost rule = { λ _. LowUnsigned 8 };

    fn convert(&self, x: i32) -> Result<u8, Error> {
        Ok(ConvertAll::<i32, u8>::apply(self, x))
    }

    fn extend_plain(&self, values: &mut Vec<u8>, pieces: &[[u8; 4]]) -> Result<(), Error> {
        extend_plain::<i32, u8, Narrow>(values, *self, pieces)?;
        Ok(())
    }

    fn extend_deltas(&self, values: &mut Vec<u8>, numbers: &[i64]) -> Result<(), Error> {
        extend_deltas::<i32, u8, Narrow>(values, *self, numbers)?;
        Ok(())
    }
}

impl ConvertAll<i32, u16> for Narrow {
    ghost use Rattle.flat_values.specs.Conversion.{LowUnsigned};

    ghost rule = { λ _. LowUnsigned 16 };

    fn apply(&self, x: i32) -> u16 {
        low_half(x)
    }
}

impl Convert<i32, u16> for Narrow {
    ghost use Rattle.flat_values.specs.Conversion.{LowUnsigned};

    ghost rule = { λ _. LowUnsigned 16 };

    fn convert(&self, x: i32) -> Result<u16, Error> {
        Ok(ConvertAll::<i32, u16>::apply(self, x))
    }

    fn extend_plain(&self, values: &mut Vec<u16>, pieces: &[[u8; 4]]) -> Result<(), Error> {
        extend_plain::<i32, u16, Narrow>(values, *self, pieces)?;
        Ok(())
    }

    fn extend_deltas(&self, values: &mut Vec<u16>, numbers: &[i64]) -> Result<(), Error> {
        extend_deltas::<i32, u16, Narrow>(values, *self, numbers)?;
        Ok(())
    }
}

impl ConvertAll<i32, u32> for Narrow {
    ghost use Rattle.flat_values.specs.Conversion.{LowUnsigned};

    ghost rule = { λ _. LowUnsigned 32 };

    fn apply(&self, x: i32) -> u32 {
        x.cast_unsigned()
    }
}

impl Convert<i32, u32> for Narrow {
    ghost use Rattle.flat_values.specs.Conversion.{LowUnsigned};

    ghost rule = { λ _. LowUnsigned 32 };

    fn convert(&self, x: i32) -> Result<u32, Error> {
        Ok(ConvertAll::<i32, u32>::apply(self, x))
    }

    fn extend_plain(&self, values: &mut Vec<u32>, pieces: &[[u8; 4]]) -> Result<(), Error> {
        extend_plain::<i32, u32, Narrow>(values, *self, pieces)?;
        Ok(())
    }

    fn extend_deltas(&self, values: &mut Vec<u32>, numbers: &[i64]) -> Result<(), Error> {
        extend_deltas::<i32, u32, Narrow>(values, *self, numbers)?;
        Ok(())
    }
}

impl ConvertAll<i32, i8> for Narrow {
    ghost use Rattle.flat_values.specs.Conversion.{LowSigned};
    ghost use Rattle.std.specs.Int.{w8};

    ghost rule = { λ _. LowSigned w8 };

    fn apply(&self, x: i32) -> i8 {
        low_byte(x).cast_signed()
    }
}

impl Convert<i32, i8> for Narrow {
    ghost use Rattle.flat_values.specs.Conversion.{LowSigned};
    ghost use Rattle.std.specs.Int.{w8};

    ghost rule = { λ _. LowSigned w8 };

    fn convert(&self, x: i32) -> Result<i8, Error> {
        Ok(ConvertAll::<i32, i8>::apply(self, x))
    }

    fn extend_plain(&self, values: &mut Vec<i8>, pieces: &[[u8; 4]]) -> Result<(), Error> {
        extend_plain::<i32, i8, Narrow>(values, *self, pieces)?;
        Ok(())
    }

    fn extend_deltas(&self, values: &mut Vec<i8>, numbers: &[i64]) -> Result<(), Error> {
        extend_deltas::<i32, i8, Narrow>(values, *self, numbers)?;
        Ok(())
    }
}

impl ConvertAll<i32, i16> for Narrow {
    ghost use Rattle.flat_values.specs.Conversion.{LowSigned};
    ghost use Rattle.std.specs.Int.{w16};

    ghost rule = { λ _. LowSigned w16 };

    fn apply(&self, x: i32) -> i16 {
        low_half(x).cast_signed()
    }
}

impl Convert<i32, i16> for Narrow {
    ghost use Rattle.flat_values.specs.Conversion.{LowSigned};
    ghost use Rattle.std.specs.Int.{w16};

    ghost rule = { λ _. LowSigned w16 };

    fn convert(&self, x: i32) -> Result<i16, Error> {
        Ok(ConvertAll::<i32, i16>::apply(self, x))
    }

    fn extend_plain(&self, values: &mut Vec<i16>, pieces: &[[u8; 4]]) -> Result<(), Error> {
        extend_plain::<i32, i16, Narrow>(values, *self, pieces)?;
        Ok(())
    }

    fn extend_deltas(&self, values: &mut Vec<i16>, numbers: &[i64]) -> Result<(), Error> {
        extend_deltas::<i32, i16, Narrow>(values, *self, numbers)?;
        Ok(())
    }
}

impl ConvertAll<i64, u32> for Narrow {
    ghost use Rattle.flat_values.specs.Conversion.{LowUnsigned};

    ghost rule = { λ _. LowUnsigned 32 };

    fn apply(&self, x: i64) -> u32 {
        low_word(x)
    }
}

impl Convert<i64, u32> for Narrow {
    ghost use Rattle.flat_values.specs.Conversion.{LowUnsigned};

    ghost rule = { λ _. LowUnsigned 32 };

    fn convert(&self, x: i64) -> Result<u32, Error> {
        Ok(ConvertAll::<i64, u32>::apply(self, x))
    }

    fn extend_plain(&self, values: &mut Vec<u32>, pieces: &[[u8; 8]]) -> Result<(), Error> {
        extend_plain::<i64, u32, Narrow>(values, *self, pieces)?;
        Ok(())
    }

    fn extend_deltas(&self, values: &mut Vec<u32>, numbers: &[i64]) -> Result<(), Error> {
        extend_deltas::<i64, u32, Narrow>(values, *self, numbers)?;
        Ok(())
    }
}

impl ConvertAll<i64, u64> for Narrow {
    ghost use Rattle.flat_values.specs.Conversion.{LowUnsigned};

    ghost rule = { λ _. LowUnsigned 64 };

    fn apply(&self, x: i64) -> u64 {
        x.cast_unsigned()
    }
}

impl Convert<i64, u64> for Narrow {
    ghost use Rattle.flat_values.specs.Conversion.{LowUnsigned};

    ghost rule = { λ _. LowUnsigned 64 };

    fn convert(&self, x: i64) -> Result<u64, Error> {
        Ok(ConvertAll::<i64, u64>::apply(self, x))
    }

    fn extend_plain(&self, values: &mut Vec<u64>, pieces: &[[u8; 8]]) -> Result<(), Error> {
        extend_plain::<i64, u64, Narrow>(values, *self, pieces)?;
        Ok(())
    }

    fn extend_deltas(&self, values: &mut Vec<u64>, numbers: &[i64]) -> Result<(), Error> {
        extend_deltas::<i64, u64, Narrow>(values, *self, numbers)?;
        Ok(())
    }
}

fn low_byte(x: i32) -> u8
    ensures { pos result ≡ modulo_bits 8 x }
{
    (x & 0xff) as u8
}

fn low_half(x: i32) -> u16
    ensures { pos result ≡ modulo_bits 16 x }
{
    (x & 0xffff) as u16
}

pub(crate) fn low_word(x: i64) -> u32
    ensures { pos result ≡ modulo_bits 32 x }
{
    (x & 0xffff_ffff) as u32
}
