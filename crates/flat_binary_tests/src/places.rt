//! Places in pages of plain byte strings and of keys, and the decoder of keys alone, by their names.
ghost use Rattle.std.specs.Prelude.{◌≡◌, true};
ghost use Rattle.parquet_page.specs.Content.{DataOf, data_content, is_shaped};

use columns_core::{Error, Part};
use flat_binary::binary::Required;
use flat_binary::dictionary;
use page_decoding::Decoder;
use parquet_meta::{PhysicalType, PrimitiveType, Repetition};
use parquet_page::{DataPage, DataPageHeader, DictPage};
use std::alloc::Global;
use std::test::*;

const STRINGS: PrimitiveType = PrimitiveType {
    physical_type: PhysicalType::ByteArray,
    logical_type: None,
    repetition: Repetition::Required,
};

const TRUTHS: PrimitiveType = PrimitiveType {
    physical_type: PhysicalType::Boolean,
    logical_type: None,
    repetition: Repetition::Required,
};

/// The first form of pages without nulls, of so many values in an encoding.
const fn header(num_values: usize, encoding: i32) -> DataPageHeader {
    DataPageHeader::V1 {
        num_values,
        encoding,
        definition_encoding: 3,
    }
}

#[test]
fn places_of_plain_byte_strings(rt: HostRuntime) -> Result<(), Fail> {
    let page = DataPage {
        header: header(2, 0),
        buffer: b"\x05\0\0\0Hello\x03\0\0\0abc",
        type_: &STRINGS,
        selected_rows: None,
    };
    assert_eq!(rt; Required::try_new(&page)?.len(), 2);
    // A byte behind the strings, and another encoding.
    let longer = DataPage {
        header: header(1, 0),
        buffer: b"\x01\0\0\0xy",
        type_: &STRINGS,
        selected_rows: None,
    };
    let refused = Required::try_new(&longer).err();
    assert_eq!(rt; refused, Some(Error::ExternalFormat(Part::Values)));
    let joined = DataPage {
        header: header(1, 6),
        buffer: b"",
        type_: &STRINGS,
        selected_rows: None,
    };
    let refused = Required::try_new(&joined).err();
    assert_eq!(rt; refused, Some(Error::NotYetImplemented(Part::Header)));
    Ok(())
}

#[test]
fn places_of_keys_of_truth_values(rt: HostRuntime) -> Result<(), Fail> {
    // The keys 0 and 3.
    let page = DataPage {
        header: header(2, 8),
        buffer: b"\x02\x03\x0C",
        type_: &TRUTHS,
        selected_rows: None,
    };
    assert_eq!(rt; dictionary::Required::try_new(&page)?.len(), 2);
    Ok(())
}

/// The error of a page of keys over a dictionary of so many entries.
fn refused_over(
    alloc: Global,
    num_values: usize,
    page: &DataPage<'_>,
) -> Result<Option<Error>, Error>
    requires { is_shaped (DataOf (data_content page.now)) ≡ true }
{
    let decoder = dictionary::PrimitiveDecoder::<i8>::default();
    let entries = decoder.deserialize_dict(
        alloc,
        &DictPage {
            buffer: b"",
            num_values,
        },
    )?;
    let refused = decoder.build_state(page, Some(&entries)).err();
    drop(entries);
    Ok(refused)
}

#[test]
fn keys_past_the_number_of_entries(rt: HostRuntime) -> Result<(), Fail> {
    // The keys 0 and 3.
    let page = DataPage {
        header: header(2, 8),
        buffer: b"\x02\x03\x0C",
        type_: &STRINGS,
        selected_rows: None,
    };
    let refused = refused_over(rt.alloc(), 3, &page)?;
    assert_eq!(rt; refused, Some(Error::OutOfSpec(Part::Dictionary)));
    let decoder = dictionary::PrimitiveDecoder::<i8>::default();
    let refused = decoder.build_state(&page, None).err();
    assert_eq!(rt; refused, Some(Error::NotYetImplemented(Part::Dictionary)));
    Ok(())
}

#[test]
fn keys_past_their_type(rt: HostRuntime) -> Result<(), Fail> {
    // The key 128.
    let page = DataPage {
        header: header(1, 8),
        buffer: b"\x08\x03\x80",
        type_: &STRINGS,
        selected_rows: None,
    };
    let refused = refused_over(rt.alloc(), 200, &page)?;
    assert_eq!(rt; refused, Some(Error::Overflow));
    Ok(())
}
