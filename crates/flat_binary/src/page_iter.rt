//! The arrays of a column, by the pair of its stored type and the type that is asked for.
ghost use Rattle.std.specs.Prelude.{◌≡◌, IfSome, IsTrue, None, true};
ghost use Rattle.std.specs.Option.{option_copied};
ghost use Rattle.std.specs.Result.{IsErrAnd};
ghost use Rattle.columns_core.specs.Causes.{is_invalid_argument};
ghost use Rattle.columns_core.specs.DictionaryType.{key_type};
ghost use Rattle.columns_core.specs.declared.data_type.DataType.{out-DataType};
ghost use Rattle.page_decoding.specs.Queue.{IsChunkSize};
ghost use Rattle.parquet_page.specs.Lending.{DataPagesAre, has_data_behind};
ghost use Rattle.flat_values.specs.Pairs.{conversion, conversion_at, from_physical, is_repeated};
ghost use Rattle.flat_binary.specs.Left.{converted_left, supply_of};
ghost use Rattle.flat_binary.specs.Begun.{BeginsColumn, IsRefusedPair, column_left};
ghost use Rattle.flat_binary.specs.Layers.{array_left};

use crate::array_iter::ArrayIter;
use crate::keys::keys_iter;
use crate::numbers::{boolean_iter, int32_iter, int64_iter, int96_iter};
use crate::strings::{byte_array_iter, fixed_iter};
use columns_core::{DataType, Error, Part};
use flat_values::null;
use parquet_meta::{PhysicalType, PrimitiveLogicalType, PrimitiveType, Repetition};
use parquet_page::Pages;
use std::alloc::Global;

/// The rows of pages, at most so many, in arrays of a type and of so many rows each, but for the last one. For a
/// dictionary type only the first of the pages to come may be a dictionary page.
///
/// `InvalidArgumentError` for a chunk size of 0, and with any other `NotYetImplemented` for a type that the stored one is not read as.
pub fn page_iter_to_arrays<I: Pages>(
    alloc: Global,
    pages: I,
    type_: &PrimitiveType,
    data_type: DataType,
    chunk_size: Option<usize>,
    num_rows: usize,
) -> Result<ArrayIter<I>, Error>
    requires typed { let physical = type_.now.physical_type in
        DataPagesAre (λ page. page.type.physical_type ≡ physical) (I.to_come pages) }
    requires ordered { IfSome (key_type data_type) (λ _. has_data_behind (I.to_come pages) ≡ true) }
    ensures begins { IsChunkSize chunk_size → IfSome (conversion type_.now data_type) (λ rule.
        let supply = supply_of I.to_come I.causes I.row_count I.lent_count pages in
        let left = array_left I.to_come I.causes I.row_count I.lent_count in
        BeginsColumn left (column_left type_.now.physical_type data_type chunk_size num_rows supply rule)
        result) }
    ensures refused { IsChunkSize chunk_size → conversion type_.now data_type ≡ None
        → IsRefusedPair result }
    ensures no_chunk { (IsChunkSize chunk_size → ⊥) →
        IsErrAnd result (λ e. IsTrue (is_invalid_argument e)) }
{
    if chunk_size == Some(0) {
        return Err(Error::InvalidArgumentError(Part::Request));
    }
    if is_repeated_type(type_) {
        return Err(Error::NotYetImplemented(Part::Schema));
    }
    let logical = type_.logical_type.as_ref();
    pair_iter(
        alloc,
        pages,
        type_.physical_type,
        logical,
        data_type,
        chunk_size,
        num_rows,
    )
}

fn is_repeated_type(type_: &PrimitiveType) -> bool
    ensures { result ≡ is_repeated type_.now.repetition }
{
    matches!(type_.repetition, Repetition::Repeated)
}

/// Of a column that is not repeated.
fn pair_iter<I: Pages>(
    alloc: Global,
    pages: I,
    physical: PhysicalType,
    logical: Option<&PrimitiveLogicalType>,
    data_type: DataType,
    chunk_size: Option<usize>,
    num_rows: usize,
) -> Result<ArrayIter<I>, Error>
    requires typed { DataPagesAre (λ page. page.type.physical_type ≡ physical) (I.to_come pages) }
    requires ordered { IfSome (key_type data_type) (λ _. has_data_behind (I.to_come pages) ≡ true) }
    requires size { IsChunkSize chunk_size }
    ensures begins { let unit = option_copied logical.entry in
        IfSome (conversion_at physical unit (out-DataType data_type)) (λ rule.
        let supply = supply_of I.to_come I.causes I.row_count I.lent_count pages in
        let left = array_left I.to_come I.causes I.row_count I.lent_count in
        BeginsColumn left (column_left physical data_type chunk_size num_rows supply rule) result) }
    ensures refused { let unit = option_copied logical.entry in
        conversion_at physical unit (out-DataType data_type) ≡ None → IsRefusedPair result }
{
    match &data_type {
        DataType::Null => {
            let nulls = null::iter_to_arrays(&pages, chunk_size, num_rows)?;
            Ok(ArrayIter::Null(nulls))
        }
        DataType::Dictionary(_, _, _) => keys_iter(
            alloc, pages, physical, logical, data_type, chunk_size, num_rows,
        ),
        _ => flat_iter(
            alloc, pages, physical, logical, data_type, chunk_size, num_rows,
        ),
    }
}

/// As a type of values.
fn flat_iter<I: Pages>(
    alloc: Global,
    pages: I,
    physical: PhysicalType,
    logical: Option<&PrimitiveLogicalType>,
    data_type: DataType,
    chunk_size: Option<usize>,
    num_rows: usize,
) -> Result<ArrayIter<I>, Error>
    requires typed { DataPagesAre (λ page. page.type.physical_type ≡ physical) (I.to_come pages) }
    requires size { IsChunkSize chunk_size }
    ensures begins { let unit = option_copied logical.entry in
        IfSome (from_physical physical unit (out-DataType data_type)) (λ rule.
        let supply = supply_of I.to_come I.causes I.row_count I.lent_count pages in
        let left = array_left I.to_come I.causes I.row_count I.lent_count in
        BeginsColumn left (converted_left physical data_type chunk_size num_rows supply rule) result) }
    ensures refused { let unit = option_copied logical.entry in
        from_physical physical unit (out-DataType data_type) ≡ None → IsRefusedPair result }
{
    match physical {
        PhysicalType::Boolean => boolean_iter(alloc, pages, data_type, chunk_size, num_rows),
        PhysicalType::Int32 => int32_iter(alloc, pages, data_type, chunk_size, num_rows),
        PhysicalType::Int64 => int64_iter(alloc, pages, logical, data_type, chunk_size, num_rows),
        PhysicalType::Int96 => int96_iter(alloc, pages, data_type, chunk_size, num_rows),
        PhysicalType::FixedLenByteArray(length) => {
            fixed_iter(alloc, pages, length, data_type, chunk_size, num_rows)
        }
        PhysicalType::ByteArray => byte_array_iter(alloc, pages, data_type, chunk_size, num_rows),
        PhysicalType::Float | PhysicalType::Double => Err(Error::NotYetImplemented(Part::Schema)),
    }
}
