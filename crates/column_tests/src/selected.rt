//! Selected rows of a page, in parts.
use crate::pages::{run_of, word_of};
use page_decoding::FilteredOptionalPageValidity;
use parquet_meta::{DataPageHeader, PhysicalType, PrimitiveType, Repetition};
use parquet_page::{DataPage, Interval, Run};
use std::test::*;

const OPTIONAL: PrimitiveType = PrimitiveType {
    physical_type: PhysicalType::Int32,
    logical_type: None,
    repetition: Repetition::Optional,
};

const FORTY_VALUES: DataPageHeader = DataPageHeader::V1 {
    num_values: 40,
    encoding: 0,
    definition_encoding: 3,
};

/// Forty levels in one packed run.
const FORTY_LEVELS: [u8; 10] = [6, 0, 0, 0, 11, 0xb5, 0x0f, 0xf0, 0x5a, 0x3c];

#[test]
fn parts_of_all_rows(rt: HostRuntime) -> Result<(), Fail> {
    let page = DataPage {
        header: FORTY_VALUES,
        buffer: &FORTY_LEVELS,
        type_: &OPTIONAL,
        selected_rows: None,
    };
    let mut walk = FilteredOptionalPageValidity::try_new(&page)?;
    assert_eq!(rt;
        word_of(walk.next_part(&page, 40)),
        Some((0x5af0_0fb5, 32, 17))
    );
    assert_eq!(rt; word_of(walk.next_part(&page, 40)), Some((0x3c, 8, 4)));
    assert!(rt; walk.next_part(&page, 40).is_none());
    Ok(())
}

#[test]
fn parts_of_selected_rows(rt: HostRuntime) -> Result<(), Fail> {
    // Rows 1 to 3 and 6 to 25.
    let rows = [
        Interval {
            start: 1,
            length: 3,
        },
        Interval {
            start: 6,
            length: 20,
        },
    ];
    let page = DataPage {
        header: FORTY_VALUES,
        buffer: &FORTY_LEVELS,
        type_: &OPTIONAL,
        selected_rows: Some(&rows),
    };
    let mut walk = FilteredOptionalPageValidity::try_new(&page)?;
    assert_eq!(rt; run_of(walk.next_part(&page, 40)), Some(Run::Passed(1)));
    assert_eq!(rt; word_of(walk.next_part(&page, 40)), Some((0b010, 3, 1)));
    assert_eq!(rt; run_of(walk.next_part(&page, 40)), Some(Run::Passed(2)));
    assert_eq!(rt;
        word_of(walk.next_part(&page, 40)),
        Some((0xb_c03e, 20, 10))
    );
    assert_eq!(rt; run_of(walk.next_part(&page, 40)), Some(Run::Passed(7)));
    assert!(rt; walk.next_part(&page, 40).is_none());
    Ok(())
}
