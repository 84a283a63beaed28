//! Arrays of decoded texts and byte strings.
ghost use Rattle.std.specs.Prelude.{◌≡◌, IsTrue, map, IfOk, IfErr};
ghost use Rattle.columns_core.specs.Column.{cell_of};
ghost use Rattle.columns_core.specs.Joined.{AreTexts, FitTogether, joined_strings};
ghost use Rattle.columns_core.specs.Stored.{is_binary, is_sized_text};
ghost use Rattle.columns_core.specs.declared.cell.Cell.{Bytes, Text};
ghost use Rattle.binary_values.specs.ByteColumns.{column_cells, column_type};
ghost use Rattle.binary_values.specs.ByteStrings.{stores_bytes};

use crate::{ByteValues, DecodedBytes};
use columns_core::{Array, BinaryArray, Bitmap, DataType, Error, Offset, Offsets, Utf8Array};
use flat_values::{IntoArray, IntoColumn, freeze_mask};

/// An array of texts or of byte strings.
#[derive(Drop)]
pub enum ByteColumn<O: Offset> {
    Texts(Utf8Array<O>),
    Strings(BinaryArray<O>),
}

/// Whether arrays of this type hold texts with these offsets.
pub fn is_text_type<O: Offset>(data_type: &DataType) -> bool
    ensures { result ≡ is_sized_text O.is_large data_type.now }
{
    if O::is_large() {
        matches!(data_type, DataType::LargeUtf8)
    } else {
        matches!(data_type, DataType::Utf8)
    }
}

fn is_binary_type<O: Offset>(data_type: &DataType) -> bool
    ensures { result ≡ is_binary O.is_large data_type.now }
{
    if O::is_large() {
        matches!(data_type, DataType::LargeBinary)
    } else {
        matches!(data_type, DataType::Binary)
    }
}

/// The array of texts that were judged.
fn text_column<O: Offset>(
    data_type: DataType,
    offsets: Offsets<O>,
    values: Vec<u8>,
    validity: Option<Bitmap>,
) -> ByteColumn<O>
    requires typed { IsTrue (is_sized_text O.is_large data_type) }
    requires fit { FitTogether offsets values.items validity }
    requires texts { AreTexts offsets values.items }
    ensures typed { column_type result ≡ data_type }
    ensures cells { column_cells result ≡
        map (cell_of Text) (joined_strings offsets values.items validity) }
{
    ByteColumn::Texts(Utf8Array::of_texts(data_type, offsets, values, validity))
}

/// The array of byte strings.
fn byte_column<O: Offset>(
    data_type: DataType,
    offsets: Offsets<O>,
    values: Vec<u8>,
    validity: Option<Bitmap>,
) -> Result<ByteColumn<O>, Error>
    requires typed { IsTrue (is_binary O.is_large data_type) }
    requires fit { FitTogether offsets values.items validity }
    ensures typed { IfOk result (λ column. column_type column ≡ data_type) }
    ensures cells { IfOk result (λ column.
        column_cells column ≡ map (cell_of Bytes) (joined_strings offsets values.items validity)) }
    ensures granted { IfErr result (λ _. ⊥) }
{
    let array = BinaryArray::try_new(data_type, offsets, values, validity)?;
    Ok(ByteColumn::Strings(array))
}

impl<O: Offset> IntoArray for ByteValues<O> {
    type Array = ByteColumn<O>;

    ghost is_type = { λ values data_type. IsTrue (stores_bytes values.is_text O.is_large data_type) };

    ghost array_type = { column_type };

    ghost array_cells = { column_cells };

    fn fits(&self, data_type: &DataType) -> bool {
        if self.is_text {
            is_text_type::<O>(data_type)
        } else {
            is_binary_type::<O>(data_type)
        }
    }

    fn into_array(
        &self,
        decoded: DecodedBytes<O>,
        data_type: DataType,
    ) -> Result<ByteColumn<O>, Error> {
        let DecodedBytes {
            strings,
            validity,
            is_text,
        } = decoded;
        let (offsets, values) = strings.into_parts();
        let validity = freeze_mask(validity);
        if is_text {
            Ok(text_column(data_type, offsets, values, validity))
        } else {
            byte_column(data_type, offsets, values, validity)
        }
    }
}

impl IntoColumn for ByteValues<i32> {
    fn into_column(array: ByteColumn<i32>) -> Array {
        match array {
            ByteColumn::Texts(array) => Array::Utf8(array),
            ByteColumn::Strings(array) => Array::Binary(array),
        }
    }
}

impl IntoColumn for ByteValues<i64> {
    fn into_column(array: ByteColumn<i64>) -> Array {
        match array {
            ByteColumn::Texts(array) => Array::LargeUtf8(array),
            ByteColumn::Strings(array) => Array::LargeBinary(array),
        }
    }
}
