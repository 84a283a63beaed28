//! Pages whose rows come in words.
ghost use Rattle.std.specs.Prelude.{◌≡◌, true, IfOk, IfSome, option_map};
ghost use Rattle.std.specs.Option.{option_copied};
ghost use Rattle.parquet_page.specs.Content.{DataOf, data_content, fit_in, is_shaped};

use columns_core::{DataType, Error};
use flat_values::{FlatDecoder, IntoArray, Keep, NumberValues, TruthValues};
use page_decoding::Decoder;
use parquet_meta::{DataPageHeader, PhysicalType, PrimitiveType, Repetition};
use parquet_page::{DataPage, Interval};
use std::alloc::{AllocError, Global};
use std::test::*;

/// Levels of forty places in one packed run. Those that have a value are 0, 3, 4, 9, 15, 16, 22, 31, 32, 38 and 39.
const MIXED_LEVELS: [u8; 10] = [6, 0, 0, 0, 0x0B, 0x19, 0x82, 0x41, 0x80, 0xC1];

/// Rows 2 to 7 and 30 to 39.
const SOME_ROWS: [Interval; 2] = [
    Interval {
        start: 2,
        length: 6,
    },
    Interval {
        start: 30,
        length: 10,
    },
];

const OPTIONAL_NUMBERS: PrimitiveType = PrimitiveType {
    physical_type: PhysicalType::Int32,
    logical_type: None,
    repetition: Repetition::Optional,
};

const OPTIONAL_TRUTHS: PrimitiveType = PrimitiveType {
    physical_type: PhysicalType::Boolean,
    logical_type: None,
    repetition: Repetition::Optional,
};

/// A page of forty places with those levels.
fn mixed_page<'a>(
    type_: &'a PrimitiveType,
    buffer: &'a [u8],
    selected_rows: Option<&'a [Interval]>,
) -> DataPage<'a>
    ensures typed { (data_content result).type ≡ type_.now }
    ensures shaped { let rows = option_map (λ rows. rows.now) selected_rows.entry in
        is_shaped (DataOf (data_content result)) ≡ fit_in 40 rows }
{
    DataPage {
        header: DataPageHeader::V1 {
            num_values: 40,
            encoding: 0,
            definition_encoding: 3,
        },
        buffer,
        type_,
        selected_rows,
    }
}

/// What a decoder makes of a page: of the next 3 selected rows, and then of all others.
fn decoded<D: Decoder>(
    alloc: Global,
    decoder: &D,
    page: &DataPage<'_>,
    dict: Option<&D::Dict>,
) -> Result<D::DecodedState, Error>
    requires takes { D.takes decoder.now (data_content page.now) }
    requires own { IfSome (option_copied dict) (D.is_own_dict decoder.now) }
    requires shaped { is_shaped (DataOf (data_content page.now)) ≡ true }
    ensures { IfOk result (D.is_own decoder.now) }
{
    let mut state = decoder.build_state(page, dict)?;
    let mut rows = decoder.with_capacity(alloc, 0)?;
    decoder.extend_from_state(page, dict, &mut state, &mut rows, 3)?;
    decoder.extend_from_state(page, dict, &mut state, &mut rows, 40)?;
    Ok(rows)
}

/// The levels, and the numbers 1 to 11 behind them.
fn mixed_numbers(alloc: Global) -> Result<Vec<u8>, AllocError> {
    let mut buffer = Vec::new(alloc);
    buffer.extend_from_slice(&MIXED_LEVELS)?;
    for number in 1..12u8 {
        buffer.extend_from_slice(&[number, 0, 0, 0])?;
    }
    Ok(buffer)
}

/// The selected rows of a page of those numbers.
fn numbers_of(alloc: Global, selected_rows: Option<&[Interval]>) -> Result<Vec<Option<i32>>, Error>
    requires { fit_in 40 (option_map (λ rows. rows.now) selected_rows) ≡ true }
{
    let values: NumberValues<i32, i32, Keep> = NumberValues::new(Keep);
    let decoder = FlatDecoder { values };
    let buffer = mixed_numbers(alloc)?;
    let page = mixed_page(&OPTIONAL_NUMBERS, &buffer, selected_rows);
    let array = decoded(alloc, &decoder, &page, None)?.into_array(DataType::Int32)?;
    let mut rows = Vec::new(alloc);
    for i in 0..array.len() {
        rows.push(array.get(i))?;
    }
    Ok(rows)
}

/// The selected rows of a page of the truth values of these bytes.
fn truths_of(alloc: Global, selected_rows: Option<&[Interval]>) -> Result<Vec<Option<bool>>, Error>
    requires { fit_in 40 (option_map (λ rows. rows.now) selected_rows) ≡ true }
{
    let mut buffer = Vec::new(alloc);
    buffer.extend_from_slice(&MIXED_LEVELS)?;
    buffer.extend_from_slice(&[0b0100_1101, 0b101])?;
    let decoder = FlatDecoder {
        values: TruthValues,
    };
    let page = mixed_page(&OPTIONAL_TRUTHS, &buffer, selected_rows);
    let array = decoded(alloc, &decoder, &page, None)?.into_array(DataType::Boolean)?;
    let mut rows = Vec::new(alloc);
    for i in 0..array.len() {
        rows.push(array.get(i))?;
    }
    Ok(rows)
}

#[test]
fn numbers_of_words(rt: HostRuntime) -> Result<(), Fail> {
    let alloc = rt.alloc();
    let mut rows = [None; 40];
    rows[0] = Some(1);
    rows[3] = Some(2);
    rows[4] = Some(3);
    rows[9] = Some(4);
    rows[15] = Some(5);
    rows[16] = Some(6);
    rows[22] = Some(7);
    rows[31] = Some(8);
    rows[32] = Some(9);
    rows[38] = Some(10);
    rows[39] = Some(11);
    assert_eq!(rt; numbers_of(alloc, None)?.as_slice(), rows.as_slice());
    assert_eq!(rt;
        numbers_of(alloc, Some(&SOME_ROWS))?.as_slice(),
        [
            None,
            Some(2),
            Some(3),
            None,
            None,
            None,
            None,
            Some(8),
            Some(9),
            None,
            None,
            None,
            None,
            None,
            Some(10),
            Some(11),
        ]
        .as_slice()
    );
    Ok(())
}

#[test]
fn truths_of_words(rt: HostRuntime) -> Result<(), Fail> {
    let alloc = rt.alloc();
    let mut rows = [None; 40];
    for row in [0, 4, 9, 22, 32, 39] {
        rows[row] = Some(true);
    }
    for row in [3, 15, 16, 31, 38] {
        rows[row] = Some(false);
    }
    assert_eq!(rt; truths_of(alloc, None)?.as_slice(), rows.as_slice());
    let (yes, no) = (Some(true), Some(false));
    assert_eq!(rt;
        truths_of(alloc, Some(&SOME_ROWS))?.as_slice(),
        [
            None, no, yes, None, None, None, None, no, yes, None, None, None, None, None, no, yes,
        ]
        .as_slice()
    );
    Ok(())
}
