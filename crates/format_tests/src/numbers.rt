//! Numbers of bytes, and runs of rows.
ghost use Rattle.std.specs.Prelude.{◌≡◌};

use parquet_base::{
    Interval, Unspelled, common_runs, from_zigzag, page_runs, runs_of_all, varint_at,
};
use std::test::*;

fn run(start: usize, length: usize) -> Interval
    ensures { result ≡ record { start = start; length = length } }
{
    Interval { start, length }
}

#[test]
fn varints(rt: HostRuntime) {
    assert_eq!(rt; varint_at(&[0xAC, 0x02, 7]), Ok((300, [7].as_slice())));
    // Padded forms are taken.
    assert_eq!(rt; varint_at(&[0x80, 0x00]), Ok((0, [].as_slice())));
    let largest = [0xFF, 0xFF, 0xFF, 0xFF, 0xFF, 0xFF, 0xFF, 0xFF, 0xFF, 0x01];
    assert_eq!(rt; varint_at(&largest), Ok((u64::MAX, [].as_slice())));
    assert_eq!(rt; varint_at(&[0x80, 0x80]), Err(Unspelled));
    assert_eq!(rt; from_zigzag(3), -2);
    assert_eq!(rt; from_zigzag(u64::MAX), i64::MIN);
}

#[test]
fn runs_of_rows(rt: HostRuntime) -> Result<(), Fail> {
    let alloc = rt.alloc();
    let pages = [run(0, 3), run(3, 3), run(6, 0), run(6, 3)];
    let kept = page_runs(alloc, &pages, &[false, true, false, true], 9)?;
    assert_eq!(rt; kept.as_slice(), [run(3, 6)].as_slice());
    let both = common_runs(alloc, &[run(0, 4), run(6, 3)], &[run(2, 5)], 9)?;
    assert_eq!(rt; both.as_slice(), [run(2, 2), run(6, 1)].as_slice());
    let all = runs_of_all(alloc, &[], 6)?;
    assert_eq!(rt; all.as_slice(), [run(0, 6)].as_slice());
    Ok(())
}
