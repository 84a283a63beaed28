//! Conversions of numbers.
ghost use Rattle.std.specs.Prelude.{◌≡◌, map, IfOk, IfErr, OnOk};
ghost use Rattle.columns_core.specs.Causes.{ComesOf};
ghost use Rattle.page_decoding.specs.Outcome.{causes_in};
ghost use Rattle.flat_values.specs.Added.{Adds};
ghost use Rattle.flat_values.specs.Conversion.{Value, NotInRange, convert};
ghost use Rattle.flat_values.specs.Outcomes.{stored_outcome};

use crate::ParquetNativeType;
use columns_core::{Error, NativeType};

/// A conversion of stored numbers to those of an array. After a refusal some of many numbers may be there.
pub trait Convert<P: ParquetNativeType, T: NativeType>: Copy {
    ghost use Rattle.flat_values.specs.Conversion.{Conversion};

    /// The rule that it follows.
    ghost rule: { Self → Conversion };

    fn convert(&self, x: P) -> Result<T, Error>
        ensures item { IfOk result (λ y. convert (rule self.now) (P.stored x) ≡ Value (T.cell y)) }
        ensures refused { IfErr result
            (λ e. (e ≡ Error.Overflow) × (convert (rule self.now) (P.stored x) ≡ NotInRange)) };

    /// Plain values converted, behind the numbers that are there.
    fn extend_plain(&self, values: &mut Vec<T>, pieces: &[P::Bytes]) -> Result<(), Error>
        ensures added { OnOk result (Adds T.cell values.old.items values.new.items
            (map (λ piece. stored_outcome (rule self.now) (P.plain piece)) pieces.now)) }
        ensures cause { ComesOf result
            (causes_in (map (λ piece. stored_outcome (rule self.now) (P.plain piece)) pieces.now)) }
    {
        values.reserve(pieces.len())?;
        for piece in pieces {
            values.push(self.convert(P::from_plain(*piece))?)?;
        }
        Ok(())
    }

    /// Values by packed deltas converted, behind the numbers that are there.
    fn extend_deltas(&self, values: &mut Vec<T>, numbers: &[i64]) -> Result<(), Error>
        ensures added { OnOk result (Adds T.cell values.old.items values.new.items
            (map (λ number. stored_outcome (rule self.now) (P.delta number)) numbers.now)) }
        ensures cause { ComesOf result
            (causes_in (map (λ number. stored_outcome (rule self.now) (P.delta number)) numbers.now)) }
    {
        values.reserve(numbers.len())?;
        for number in numbers {
            values.push(self.convert(P::from_delta(*number))?)?;
        }
        Ok(())
    }
}

/// A conversion that takes every number.
pub trait ConvertAll<P: ParquetNativeType, T: NativeType>: Copy {
    ghost use Rattle.flat_values.specs.Conversion.{Conversion};

    /// The rule that it follows.
    ghost rule: { Self → Conversion };

    fn apply(&self, x: P) -> T
        ensures { convert (rule self.now) (P.stored x) ≡ Value (T.cell result) };
}
