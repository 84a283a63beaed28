//! Many values at once, by a conversion that takes every number.
ghost use Rattle.std.specs.Prelude.{map, OnOk};
ghost use Rattle.flat_values.specs.Added.{Adds};
ghost use Rattle.flat_values.specs.Outcomes.{stored_outcome};

use crate::{ConvertAll, ParquetNativeType};
use columns_core::NativeType;
use std::alloc::AllocError;

/// Plain values converted, behind the numbers that are there.
pub(crate) fn extend_plain<P: ParquetNativeType, T: NativeType, C: ConvertAll<P, T>>(
    values: &mut Vec<T>,
    rule: C,
    pieces: &[P::Bytes],
) -> Result<(), AllocError>
    ensures { OnOk result (Adds T.cell values.old.items values.new.items
        (map (λ piece. stored_outcome (C.rule rule) (P.plain piece)) pieces.now)) }
{
    values.extend(
        pieces
            .iter()
            .map(move |piece| rule.apply(P::from_plain(*piece))),
    )
}

/// Values by packed deltas converted, behind the numbers that are there.
pub(crate) fn extend_deltas<P: ParquetNativeType, T: NativeType, C: ConvertAll<P, T>>(
    values: &mut Vec<T>,
    rule: C,
    numbers: &[i64],
) -> Result<(), AllocError>
    ensures { OnOk result (Adds T.cell values.old.items values.new.items
        (map (λ number. stored_outcome (C.rule rule) (P.delta number)) numbers.now)) }
{
    values.extend(
        numbers
            .iter()
            .map(move |number| rule.apply(P::from_delta(*number))),
    )
}
