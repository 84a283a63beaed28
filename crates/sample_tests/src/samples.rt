//! Sample files.
use columns_core::{Cell, Error};
use parquet_meta::{MemorySource, read_metadata};
use parquet_sample::{sample_cell, sample_file};
use sha2::{Digest, Sha256};
use std::test::Fail;

/// The digest of the sample file of 6 rows from 0 on.
const SIX_ROWS: [u8; 32] = [
    0xaa, 0x16, 0x57, 0x99, 0x86, 0xa4, 0xde, 0x62, 0x3d, 0xf4, 0xa8, 0xa5, 0x27, 0x9c, 0x21, 0x57,
    0x2a, 0x51, 0x87, 0x6e, 0x70, 0x3b, 0x56, 0xc7, 0xc9, 0x42, 0xfb, 0xa2, 0x1e, 0x4b, 0xc9, 0x15,
];

/// The digest of the sample file of 2000 rows from 0 on.
const TWO_THOUSAND_ROWS: [u8; 32] = [
    0x34, 0xae, 0x99, 0x60, 0x4f, 0x3c, 0xba, 0xbd, 0xa7, 0xde, 0xd5, 0xfd, 0x06, 0xef, 0x69, 0x22,
    0x59, 0x27, 0x44, 0x57, 0xf9, 0xe2, 0xe8, 0x7a, 0x75, 0xa7, 0x1d, 0x44, 0x29, 0x02, 0xde, 0x42,
];

#[test]
fn files_of_known_digests(rt: HostRuntime) -> Result<(), Fail> {
    for (rows, length, digest) in [(6, 500, SIX_ROWS), (2000, 40311, TWO_THOUSAND_ROWS)] {
        let Ok(file) = sample_file(rt.alloc(), rows, 0) else {
            return Err(Fail::from("no file"));
        };
        assert_eq!(rt; file.len(), length);
        assert_eq!(rt; Sha256::digest(file.as_slice()), digest);
    }
    Ok(())
}

#[test]
fn groups_and_columns_of_a_file(rt: HostRuntime) -> Result<(), Fail> {
    let Ok(file) = sample_file(rt.alloc(), 20001, 7) else {
        return Err(Fail::from("no file"));
    };
    let mut source = MemorySource::new(file);
    let Ok(metadata) = read_metadata(rt.alloc(), &mut source) else {
        return Err(Fail::from("no metadata"));
    };
    assert_eq!(rt; metadata.num_rows, 20001);
    assert_eq!(rt; metadata.columns.as_slice().len(), 3);
    assert_eq!(rt; metadata.row_groups.as_slice().len(), 2);
    Ok(())
}

#[test]
fn files_of_too_many_rows(rt: HostRuntime) -> Result<(), Fail> {
    for rows in [2000001, u32::MAX] {
        let answer = sample_file(rt.alloc(), rows, 0);
        assert!(rt; matches!(answer, Err(Error::InvalidArgumentError(_))));
    }
    Ok(())
}

#[test]
fn cells_of_columns(rt: HostRuntime) -> Result<(), Fail> {
    let alloc = rt.alloc();
    assert!(rt; matches!(sample_cell(alloc, 7, 0, 3), Ok(Cell::Int(10))));
    assert!(rt; matches!(sample_cell(alloc, 7, 1, 3), Ok(Cell::Null)));
    assert!(rt; matches!(sample_cell(alloc, 1000, 1, 1), Ok(Cell::Int(1))));
    let Ok(Cell::Text(name)) = sample_cell(alloc, u32::MAX, 2, u32::MAX) else {
        return Err(Fail::from("no text"));
    };
    assert_eq!(rt; name.as_str(), "r8589934590");
    Ok(())
}
