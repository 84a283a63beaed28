//! Times of one unit as those of another.
ghost use Rattle.std.specs.Prelude.{◌≡◌, ◌<◌, ◌*ℤ◌, int_div, pos, IfOk, IfErr};
ghost use Rattle.flat_values.specs.Conversion.{Value, NotInRange, int64};
ghost use Rattle.columns_core.specs.declared.cell.Cell.{Int};

use crate::bulk::{extend_deltas, extend_plain};
use crate::{Convert, ConvertAll};
use columns_core::Error;
use std::marker::Model;

/// Times of one unit as those of another: times a factor, or divided by it toward zero.
#[derive(Clone, Copy, Debug, PartialEq, Eq)]
pub struct Scale {
    factor: u32,
    multiply: bool,
}

impl Model for Scale {
    ghost use Rattle.std.specs.Prelude.{ℕ, Bool, ◌<◌};
    ghost use Rattle.std.specs.Coded.{coded×, coded_ℕ, coded_bool};

    ghost Value = { ℕ × Bool };

    ghost coded = { coded× coded_ℕ coded_bool };

    ghost view = { λ scale. (scale.factor, scale.multiply) };

    ghost invariant = { λ scale. 0 < scale.factor };

    ghost inverse = { λ value. record { factor = value.0; multiply = value.1 } };
}

impl Scale {
    ghost use Rattle.std.specs.Prelude.{◌≡◌, nat_abs};
    ghost use Rattle.flat_values.specs.Numbers.{IsFactor};

    /// The conversion by a factor between units.
    pub fn new(factor: i64, multiply: bool) -> Self
        requires { IsFactor factor }
        ensures { result ≡ (nat_abs factor, multiply) }
    {
        Scale {
            factor: factor as u32,
            multiply,
        }
    }
}

impl Convert<i64, i64> for Scale {
    ghost use Rattle.flat_values.specs.Conversion.{Scale as Scaled};

    ghost rule = { λ scale. Scaled scale.0 scale.1 };

    fn convert(&self, x: i64) -> Result<i64, Error> {
        if self.multiply {
            times(x, self.factor as i64)
        } else {
            Ok(quotient(x, self.factor))
        }
    }

    /// Only a product may be refused, so only products are taken one by one.
    fn extend_plain(&self, values: &mut Vec<i64>, pieces: &[[u8; 8]]) -> Result<(), Error> {
        if !self.multiply {
            Convert::<i64, i64>::extend_plain(&Divide(*self), values, pieces)
        } else if self.factor == 1 {
            Convert::<i64, i64>::extend_plain(&SameUnit, values, pieces)
        } else {
            Convert::<i64, i64>::extend_plain(&Multiply(*self), values, pieces)
        }
    }

    fn extend_deltas(&self, values: &mut Vec<i64>, numbers: &[i64]) -> Result<(), Error> {
        if !self.multiply {
            Convert::<i64, i64>::extend_deltas(&Divide(*self), values, numbers)
        } else if self.factor == 1 {
            Convert::<i64, i64>::extend_deltas(&SameUnit, values, numbers)
        } else {
            Convert::<i64, i64>::extend_deltas(&Multiply(*self), values, numbers)
        }
    }
}

/// Times of the unit that is wanted.
#[derive(Clone, Copy)]
struct SameUnit;

impl ConvertAll<i64, i64> for SameUnit {
    ghost use Rattle.std.specs.Prelude.{true};
    ghost use Rattle.flat_values.specs.Conversion.{Scale as Scaled};

    ghost rule = { λ _. Scaled 1 true };

    fn apply(&self, x: i64) -> i64 {
        x
    }
}

impl Convert<i64, i64> for SameUnit {
    ghost use Rattle.std.specs.Prelude.{true};
    ghost use Rattle.flat_values.specs.Conversion.{Scale as Scaled};

    ghost rule = { λ _. Scaled 1 true };

    fn convert(&self, x: i64) -> Result<i64, Error> {
        Ok(ConvertAll::<i64, i64>::apply(self, x))
    }

    fn extend_plain(&self, values: &mut Vec<i64>, pieces: &[[u8; 8]]) -> Result<(), Error> {
        extend_plain::<i64, i64, SameUnit>(values, *self, pieces)?;
        Ok(())
    }

    fn extend_deltas(&self, values: &mut Vec<i64>, numbers: &[i64]) -> Result<(), Error> {
        extend_deltas::<i64, i64, SameUnit>(values, *self, numbers)?;
        Ok(())
    }
}

/// Times divided by a factor, which refuses none.
#[derive(Clone, Copy)]
struct Divide(Scale);

impl ConvertAll<i64, i64> for Divide {
    ghost use Rattle.std.specs.Prelude.{false};
    ghost use Rattle.flat_values.specs.Conversion.{Scale as Scaled};

    ghost rule = { λ divide. Scaled (divide.0).0 false };

    fn apply(&self, x: i64) -> i64 {
        quotient(x, self.0.factor)
    }
}

impl Convert<i64, i64> for Divide {
    ghost use Rattle.std.specs.Prelude.{false};
    ghost use Rattle.flat_values.specs.Conversion.{Scale as Scaled};

    ghost rule = { λ divide. Scaled (divide.0).0 false };

    fn convert(&self, x: i64) -> Result<i64, Error> {
        Ok(ConvertAll::<i64, i64>::apply(self, x))
    }

    fn extend_plain(&self, values: &mut Vec<i64>, pieces: &[[u8; 8]]) -> Result<(), Error> {
        extend_plain::<i64, i64, Divide>(values, *self, pieces)?;
        Ok(())
    }

    fn extend_deltas(&self, values: &mut Vec<i64>, numbers: &[i64]) -> Result<(), Error> {
        extend_deltas::<i64, i64, Divide>(values, *self, numbers)?;
        Ok(())
    }
}

/// Times multiplied by a factor, one after the other.
#[derive(Clone, Copy)]
struct Multiply(Scale);

impl Convert<i64, i64> for Multiply {
    ghost use Rattle.std.specs.Prelude.{true};
    ghost use Rattle.flat_values.specs.Conversion.{Scale as Scaled};

    ghost rule = { λ multiply. Scaled (multiply.0).0 true };

    fn convert(&self, x: i64) -> Result<i64, Error> {
        times(x, self.0.factor as i64)
    }
}

/// A quotient, rounded toward zero. The factors between units stand here one by one, since a division by a number that the compiler knows is a
/// product.
fn quotient(x: i64, factor: u32) -> i64
    requires { 0 < factor }
    ensures { result ≡ int_div x (pos factor) }
{
    match factor {
        1_000 => x / 1_000,
        1_000_000 => x / 1_000_000,
        1_000_000_000 => x / 1_000_000_000,
        _ => x / factor as i64,
    }
}

/// A product of 64 bits.
fn times(x: i64, factor: i64) -> Result<i64, Error>
    ensures item { IfOk result (λ y. int64 (x *ℤ factor) ≡ Value (Int y)) }
    ensures refused { IfErr result (λ e. (e ≡ Error.Overflow) × (int64 (x *ℤ factor) ≡ NotInRange)) }
{
    match x.checked_mul(factor) {
        Some(product) => Ok(product),
        None => Err(Error::Overflow),
    }
}
