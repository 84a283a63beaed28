//! An end that a column stores, as a value.
ghost use Rattle.std.specs.Prelude.{◌≡◌, [], true, option_map, IfOk, OnOk};
ghost use Rattle.columns_core.specs.Causes.{ComesOf};
ghost use Rattle.flat_values.specs.Conversion.{Value};
ghost use Rattle.parquet_page.specs.Stored.{Stored, Number};
ghost use Rattle.column_ends.specs.ByRule.{item_by, item_causes_by, end_by, end_causes_by};
ghost use Rattle.column_ends.specs.Rules.{fits_size};

use crate::ValueRule;
use crate::value::{bytes_value, fixed_value, int32_value, int64_value, int96_value};
use columns_core::{Cell, Error, Part, Seq};
use std::alloc::Global;

/// An end as a column stores it.
pub(crate) trait StoredEnd: Drop {
    /// The stored value.
    ghost stored: { Self → Stored };

    /// It as a value, where it is one that the rule is for.
    fn value(&self, alloc: Global, rule: ValueRule, part: Part) -> Result<Cell, Error>
        requires { fits_size rule ≡ true }
        ensures value { IfOk result (λ cell. item_by rule (stored self.now) ≡ Value cell) }
        ensures ok { OnOk result (item_causes_by rule (stored self.now) ≡ []) }
        ensures cause { ComesOf result (item_causes_by rule (stored self.now)) };
}

impl StoredEnd for bool {
    ghost use Rattle.parquet_page.specs.Stored.{Truth};

    ghost stored = { Truth };

    fn value(&self, _alloc: Global, rule: ValueRule, part: Part) -> Result<Cell, Error> {
        match rule {
            ValueRule::Truth => Ok(Cell::Bool(*self)),
            ValueRule::Int32(_)
            | ValueRule::Int64(_)
            | ValueRule::Int96(_)
            | ValueRule::Bytes(_)
            | ValueRule::Fixed(_, _) => Err(Error::ExternalFormat(part)),
        }
    }
}

impl StoredEnd for i32 {
    ghost use Rattle.parquet_page.specs.Stored.{Number};

    ghost stored = { Number };

    fn value(&self, _alloc: Global, rule: ValueRule, part: Part) -> Result<Cell, Error> {
        number_value(*self as i64, rule, part)
    }
}

impl StoredEnd for i64 {
    ghost use Rattle.parquet_page.specs.Stored.{Number};

    ghost stored = { Number };

    fn value(&self, _alloc: Global, rule: ValueRule, part: Part) -> Result<Cell, Error> {
        number_value(*self, rule, part)
    }
}

impl StoredEnd for [u32; 3] {
    ghost use Rattle.flat_values.specs.Numbers.{words_of};

    ghost stored = { words_of };

    fn value(&self, _alloc: Global, rule: ValueRule, part: Part) -> Result<Cell, Error> {
        match rule {
            ValueRule::Int96(rule) => int96_value(rule, *self),
            ValueRule::Truth
            | ValueRule::Int32(_)
            | ValueRule::Int64(_)
            | ValueRule::Bytes(_)
            | ValueRule::Fixed(_, _) => Err(Error::ExternalFormat(part)),
        }
    }
}

impl StoredEnd for Seq<u8> {
    ghost use Rattle.parquet_page.specs.Stored.{Octets};

    ghost stored = { Octets };

    fn value(&self, alloc: Global, rule: ValueRule, part: Part) -> Result<Cell, Error> {
        let bytes = self.as_slice();
        match rule {
            ValueRule::Bytes(rule) => bytes_value(alloc, rule, bytes, part),
            ValueRule::Fixed(size, rule) if bytes.len() == size => fixed_value(alloc, rule, bytes),
            ValueRule::Fixed(_, _)
            | ValueRule::Truth
            | ValueRule::Int32(_)
            | ValueRule::Int64(_)
            | ValueRule::Int96(_) => Err(Error::ExternalFormat(part)),
        }
    }
}

/// A number of 32 or 64 bits as a value. Of a rule for 32 bits it has to be one of these.
#[inline(always)]
fn number_value(n: i64, rule: ValueRule, part: Part) -> Result<Cell, Error>
    ensures value { IfOk result (λ cell. item_by rule (Number n) ≡ Value cell) }
    ensures ok { OnOk result (item_causes_by rule (Number n) ≡ []) }
    ensures cause { ComesOf result (item_causes_by rule (Number n)) }
{
    match rule {
        ValueRule::Int32(rule) => match i32::try_from(n) {
            Ok(n) => int32_value(rule, n),
            Err(_) => Err(Error::ExternalFormat(part)),
        },
        ValueRule::Int64(rule) => int64_value(rule, n),
        ValueRule::Truth | ValueRule::Int96(_) | ValueRule::Bytes(_) | ValueRule::Fixed(_, _) =>
            Err(Error::ExternalFormat(part)),
    }
}

/// An end as a value, where it is told.
pub(crate) fn end_value<T: StoredEnd>(
    alloc: Global,
    rule: ValueRule,
    end: &Option<T>,
    part: Part,
) -> Result<Option<Cell>, Error>
    requires { fits_size rule ≡ true }
    ensures value { IfOk result (λ cell. end_by rule (option_map T.stored end.now) ≡ cell) }
    ensures ok { OnOk result (end_causes_by rule (option_map T.stored end.now) ≡ []) }
    ensures cause { ComesOf result (end_causes_by rule (option_map T.stored end.now)) }
{
    match end {
        None => Ok(None),
        Some(end) => Ok(Some(end.value(alloc, rule, part)?)),
    }
}
