//! The values that texts spell.
ghost use Rattle.std.specs.Prelude.{◌≡◌, ◌||◌, option_map, IfOk, IsTrue, OnErr};
ghost use Rattle.columns_core.specs.Types as types;
ghost use Rattle.pq_common.specs.Spelled as spec;

use crate::numbers::signed_number;
use columns_core::{Cell, DataType, Name, Seq};
use std::alloc::{AllocError, Global};

/// The value of a type that a text spells.
pub fn value(alloc: Global, data_type: &DataType, text: &str) -> Result<Option<Cell>, AllocError>
    ensures found { IfOk result (λ found. found ≡ spec.spelled_value data_type.now text.now) }
    ensures memory { let values = types.value_type data_type.now in
        OnErr result (IsTrue (types.is_text values || types.is_byte_type values)) }
{
    let data_type = entry_type(data_type);
    match data_type {
        DataType::Utf8 | DataType::LargeUtf8 => Ok(Some(text_value(alloc, text)?)),
        DataType::Binary | DataType::LargeBinary | DataType::FixedSizeBinary(_) => {
            bytes_value(alloc, text.as_bytes())
        }
        _ => Ok(number_value(data_type, text.as_bytes())),
    }
}

/// Of a dictionary type the type of its entries, and of any other the type itself.
fn entry_type(data_type: &DataType) -> &DataType
    ensures { result.now ≡ types.value_type data_type.now }
{
    match data_type {
        DataType::Dictionary(_, values, _) => values.get(),
        _ => data_type,
    }
}

fn text_value(alloc: Global, text: &str) -> Result<Cell, AllocError>
    ensures { IfOk result (λ cell. cell ≡ Cell.Text text.now) }
{
    Ok(Cell::Text(Name::new(String::from_str(alloc, text)?)))
}

/// The number of a type that a text spells.
fn number_value(data_type: &DataType, text: &[u8]) -> Option<Cell>
    ensures { result ≡ spec.number_value data_type.now text.now }
{
    let number = signed_number(text)?;
    if is_in_range(data_type, number) {
        Some(Cell::Int(number))
    } else {
        None
    }
}

/// Whether a number is one of a type of numbers.
fn is_in_range(data_type: &DataType, number: i128) -> bool
    ensures { result ≡ spec.is_number_of data_type.now number }
{
    match data_type {
        DataType::Int8 => i8::try_from(number).is_ok(),
        DataType::Int16 => i16::try_from(number).is_ok(),
        DataType::Int32 | DataType::Date32 | DataType::Time32(_) => i32::try_from(number).is_ok(),
        DataType::Int64
        | DataType::Date64
        | DataType::Time64(_)
        | DataType::Duration(_)
        | DataType::Timestamp(_, _) => i64::try_from(number).is_ok(),
        DataType::UInt8 => u8::try_from(number).is_ok(),
        DataType::UInt16 => u16::try_from(number).is_ok(),
        DataType::UInt32 => u32::try_from(number).is_ok(),
        DataType::UInt64 => u64::try_from(number).is_ok(),
        DataType::Decimal(_, _) => true,
        _ => false,
    }
}

/// The bytes that `0x` and two hexadecimal digits for each spell.
fn bytes_value(alloc: Global, text: &[u8]) -> Result<Option<Cell>, AllocError>
    ensures { IfOk result (λ cell. cell ≡ spec.bytes_value text.now) }
{
    match text.strip_prefix(b"0x") {
        None => Ok(None),
        Some(digits) => match hex_bytes(alloc, digits)? {
            None => Ok(None),
            Some(bytes) => Ok(Some(Cell::Bytes(Seq::new(bytes)))),
        },
    }
}

/// The bytes that two hexadecimal digits for each spell.
fn hex_bytes(alloc: Global, digits: &[u8]) -> Result<Option<Vec<u8>>, AllocError>
    ensures { IfOk result (λ found. option_map (λ bytes. bytes.items) found ≡ spec.hex_bytes digits.now) }
{
    let mut bytes = Vec::with_capacity(alloc, digits.len() / 2)?;
    let mut rest = digits;
    while let [high, low, others @ ..] = rest {
        let Some(byte) = hex_byte(*high, *low) else {
            return Ok(None);
        };
        bytes.push(byte)?;
        rest = others;
    }
    if rest.is_empty() {
        Ok(Some(bytes))
    } else {
        Ok(None)
    }
}

/// The byte that two hexadecimal digits spell.
fn hex_byte(high: u8, low: u8) -> Option<u8>
    ensures { result ≡ spec.hex_byte high low }
{
    Some(16 * hex_digit(high)? + hex_digit(low)?)
}

fn hex_digit(digit: u8) -> Option<u8>
    ensures { result ≡ spec.hex_digit digit }
{
    match digit {
        b'0'..=b'9' => Some(digit - b'0'),
        b'a'..=b'f' => Some(digit - b'a' + 10),
        b'A'..=b'F' => Some(digit - b'A' + 10),
        _ => None,
    }
}
