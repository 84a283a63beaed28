//! Bytes of the compact protocol, and what they spell.
use parquet_thrift::{BINARY, Compact, FieldHeader, I32, I64, LIST, ListHeader, STRUCT, Unspelled};
use std::process::Abort;
use std::test::Fail;

/// The header of a data page: type 0, sizes 20 and 20, and in field 5 a struct of 5 values, encoding 0 and
/// encodings of levels 3 and 3.
const PAGE_HEADER: [u8; 17] = [
    0x15, 0x00, 0x15, 0x28, 0x15, 0x28, 0x2c, 0x15, 0x0a, 0x15, 0x00, 0x15, 0x06, 0x15, 0x06, 0x00,
    0x00,
];

/// The next field has this id, and is this number.
fn expect_number(rt: &impl Abort, compact: &mut Compact<'_>, previous: i16, id: i16, number: i32) {
    assert_eq!(rt;
        compact.next_field(previous),
        Ok(Some(FieldHeader { id, kind: I32 }))
    );
    assert_eq!(rt; compact.read_i32(), Ok(number));
}

#[test]
fn reads_the_fields_of_a_page_header(rt: HostRuntime) {
    let mut compact = Compact::new(&PAGE_HEADER);
    expect_number(&rt, &mut compact, 0, 1, 0);
    expect_number(&rt, &mut compact, 1, 2, 20);
    expect_number(&rt, &mut compact, 2, 3, 20);
    assert_eq!(rt;
        compact.next_field(3),
        Ok(Some(FieldHeader {
            id: 5,
            kind: STRUCT
        }))
    );
    expect_number(&rt, &mut compact, 0, 1, 5);
    expect_number(&rt, &mut compact, 1, 2, 0);
    expect_number(&rt, &mut compact, 2, 3, 3);
    expect_number(&rt, &mut compact, 3, 4, 3);
    assert_eq!(rt; compact.next_field(4), Ok(None));
    assert_eq!(rt; compact.next_field(5), Ok(None));
    assert_eq!(rt; compact.position(), 17);
}

#[test]
fn reads_values_of_other_kinds(rt: HostRuntime) {
    let mut compact = Compact::new(&[
        0x28, 0x03, b'a', b'b', b'c', 0x16, 0xc8, 0x01, 0x19, 0x31, 0x01, 0x00, 0x02, 0xff,
    ]);
    assert_eq!(rt;
        compact.next_field(0),
        Ok(Some(FieldHeader {
            id: 2,
            kind: BINARY
        }))
    );
    assert_eq!(rt; compact.read_binary(), Ok(b"abc".as_slice()));
    assert_eq!(rt;
        compact.next_field(2),
        Ok(Some(FieldHeader { id: 3, kind: I64 }))
    );
    assert_eq!(rt; compact.read_i64(), Ok(100));
    assert_eq!(rt;
        compact.next_field(3),
        Ok(Some(FieldHeader { id: 4, kind: LIST }))
    );
    assert_eq!(rt; compact.read_list(), Ok(ListHeader { count: 3, kind: 1 }));
    assert_eq!(rt; compact.read_bool(), Ok(true));
    assert_eq!(rt; compact.read_bool(), Ok(false));
    assert_eq!(rt; compact.read_bool(), Ok(false));
    assert_eq!(rt; compact.read_byte(), Ok(-1));
    assert_eq!(rt; compact.read_byte(), Err(Unspelled));
}

#[test]
fn passes_over_values_at_most_32_deep(rt: HostRuntime) {
    let mut lists = [0x19; 33];
    lists[32] = 0x03;
    let mut deepest = Compact::new(&lists[1..]);
    assert_eq!(rt; deepest.skip(LIST), Ok(()));
    assert_eq!(rt; deepest.position(), 32);
    let mut deeper = Compact::new(&lists);
    assert_eq!(rt; deeper.skip(LIST), Err(Unspelled));
    assert_eq!(rt; deeper.position(), 0);
    let mut header = Compact::new(&PAGE_HEADER);
    assert_eq!(rt; header.skip(STRUCT), Ok(()));
    assert_eq!(rt; header.position(), 17);
}
