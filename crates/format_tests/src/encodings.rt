//! Bytes of pages, and the values that they spell.
ghost use Rattle.std.specs.Prelude.{◌<◌, IsSome};
ghost use Rattle.parquet_encoding.specs.HybridLeft.{hybrid_left};

use parquet_encoding::{
    DeltaBinary, DeltaLength, HybridRle, HybridRun, PlainBits, PlainBytes, PlainFixed,
};
use std::process::Abort;
use std::test::*;

#[test]
fn packed_numbers(rt: HostRuntime) -> Result<(), Fail> {
    let bytes = [0x03, 0x88, 0xC6, 0xFA];
    let mut numbers = [0; 8];
    let mut decoder = HybridRle::try_new(&bytes, 3, 8)?;
    assert_eq!(rt; decoder.fill(&bytes, &mut numbers), 8);
    assert_eq!(rt; numbers, [0, 1, 2, 3, 4, 5, 6, 7]);
    assert_eq!(rt; decoder.next(&bytes), None);
    assert!(rt; HybridRle::try_new(&bytes, 3, 9).is_err());
    Ok(())
}

#[test]
fn runs_as_they_stand(rt: HostRuntime) -> Result<(), Fail> {
    // No groups, no copies, two copies of 2, and one group.
    let bytes = [0x01, 0x00, 0x01, 0x04, 0x02, 0x03, 0x5B];
    let mut decoder = HybridRle::try_new(&bytes, 1, 6)?;
    assert_eq!(rt;
        decoder.next_run(&bytes, 9),
        Some(HybridRun::Repeated { value: 2, count: 2 })
    );
    let run = decoder.next_run(&bytes, 3).expect(&rt, "a packed run");
    assert_eq!(rt; run.len(), 3);
    assert_eq!(rt; run.first(&bytes), 1);
    let mut bits = [7; 3];
    run.unpack(&bytes, &mut bits);
    assert_eq!(rt; bits, [1, 1, 0]);
    assert_eq!(rt; decoder.remaining(), 1);
    assert_eq!(rt; decoder.next(&bytes), Some(1));
    assert_eq!(rt; decoder.next_run(&bytes, 1), None);
    Ok(())
}

#[test]
fn copies_without_end(rt: HostRuntime) -> Result<(), Fail> {
    let bytes = [
        0x80, 0x80, 0x80, 0x80, 0x80, 0x80, 0x80, 0x80, 0x80, 0x01, 0x01,
    ];
    let mut decoder = HybridRle::try_new(&bytes, 1, 4611686018427387904)?;
    decoder.skip(&bytes, 4611686018427387903);
    assert_eq!(rt; decoder.remaining(), 1);
    assert_eq!(rt; decoder.next(&bytes), Some(1));
    assert_eq!(rt; decoder.next(&bytes), None);
    Ok(())
}

#[test]
fn hostile_runs(rt: HostRuntime) {
    let many = [
        0xFF, 0xFF, 0xFF, 0xFF, 0xFF, 0xFF, 0xFF, 0xFF, 0xFF, 0x01, 1, 2, 3, 4, 5, 6, 7, 8, 9,
    ];
    let long = [
        0x80, 0x80, 0x80, 0x80, 0x80, 0x80, 0x80, 0x80, 0x80, 0x80, 0x00, 0x01,
    ];
    let rows: [(&[u8], u32, usize, bool); 14] = [
        // A packed run that is cut by the end has the numbers that lie whole in it.
        (&[0x03, 0x88, 0xC6], 3, 5, true),
        (&[0x03, 0x88, 0xC6], 3, 6, false),
        (&many, 32, 2, true),
        (&many, 32, 3, false),
        (&many, 17, 4, true),
        (&many, 17, 5, false),
        (&long, 1, 1, false),
        (&[0x80], 1, 1, false),
        // A repeated number is asked for in whole bytes, also where no copy of it is wanted.
        (&[0x02, 0x01], 9, 1, false),
        (&[0x00], 1, 1, false),
        (&[], 1, 0, true),
        (&[], 1, 1, false),
        (&[], 0, usize::MAX, true),
        (&[0x02, 0, 0, 0, 0, 0], 33, 0, false),
    ];
    for (bytes, width, count, spelled) in rows {
        assert_eq!(rt; HybridRle::try_new(bytes, width, count).is_ok(), spelled);
    }
}

/// The number at an index among numbers of a fixed width, bit by bit.
fn number_at(body: &[u8], width: u32, index: usize) -> u32 {
    let mut number = 0;
    for i in 0..width {
        let bit = index.wrapping_mul(width as usize).wrapping_add(i as usize);
        let byte = body.get(bit / 8).copied().unwrap_or(0);
        if byte & (1 << (bit % 8)) != 0 {
            number |= 1u32.wrapping_shl(i);
        }
    }
    number
}

/// The numbers that are left are those from an index up to a count, one by one and together.
fn compare(rt: &impl Abort, decoder: HybridRle, bytes: &[u8], width: u32, from: usize, count: usize)
    requires { IsSome (hybrid_left decoder bytes.now) }
{
    let body = bytes.get(1..).unwrap_or(&[]);
    let mut one = decoder;
    let mut all = decoder;
    let mut numbers = [0; 71];
    let written = all.fill(bytes, &mut numbers);
    assert_eq!(rt; written, count.saturating_sub(from));
    for i in 0..written {
        let number = number_at(body, width, from.wrapping_add(i));
        assert_eq!(rt; one.next(bytes), Some(number));
        assert_eq!(rt; numbers.get(i).copied(), Some(number));
    }
    assert_eq!(rt; one.next(bytes), None);
}

#[test]
fn numbers_of_every_width(rt: HostRuntime) -> Result<(), Fail> {
    // The header of nine groups, and 37 times the place.
    let mut bytes = [0x13; 289];
    for (place, byte) in bytes[1..].iter_mut().enumerate() {
        *byte = (37 * place % 256) as u8;
    }
    for width in 0..=32 {
        let bytes = &bytes[..1 + 9 * width as usize];
        for count in 0..=70 {
            for passed in [0, 1, 7, 8, 9, 64] {
                let mut decoder = HybridRle::try_new(bytes, width, count)?;
                decoder.skip(bytes, passed);
                compare(&rt, decoder, bytes, width, passed, count);
            }
        }
    }
    Ok(())
}

#[test]
fn values_of_one_size(rt: HostRuntime) -> Result<(), Fail> {
    let bytes = [1, 2, 3, 4, 5, 6];
    let mut decoder = PlainFixed::try_new(&bytes, 2, 3)?;
    assert_eq!(rt; decoder.next(&bytes), Some((0, 2)));
    assert_eq!(rt; decoder.take(&bytes, 1), [3, 4].as_slice());
    decoder.skip(&bytes, 9);
    assert_eq!(rt; decoder.remaining(), 0);
    assert!(rt; PlainFixed::try_new(&bytes, 2, 2).is_err());
    assert!(rt; PlainFixed::try_new(&bytes, usize::MAX, usize::MAX).is_err());
    assert!(rt; PlainFixed::try_new(&[], 0, 3).is_ok());
    Ok(())
}

#[test]
fn strings_behind_lengths(rt: HostRuntime) -> Result<(), Fail> {
    let bytes = [2, 0, 0, 0, 104, 105, 0, 0, 0, 0, 1, 0, 0, 0, 33];
    let mut decoder = PlainBytes::try_new(&bytes, 3)?;
    assert_eq!(rt; decoder.next(&bytes), Some((4, 2)));
    decoder.skip(&bytes, 1);
    assert_eq!(rt; decoder.remaining(), 1);
    assert_eq!(rt; decoder.next(&bytes), Some((14, 1)));
    assert_eq!(rt; decoder.next(&bytes), None);
    assert!(rt; PlainBytes::try_new(&bytes, 2).is_err());
    assert!(rt; PlainBytes::try_new(&[0xFF, 0xFF, 0xFF, 0xFF, 1], 1).is_err());
    assert!(rt; PlainBytes::try_new(&[1, 0, 0], 1).is_err());
    Ok(())
}

#[test]
fn truth_values(rt: HostRuntime) -> Result<(), Fail> {
    let bytes = [0x5B, 0x02];
    let mut decoder = PlainBits::try_new(&bytes, 10)?;
    assert_eq!(rt; decoder.next(&bytes), Some(true));
    decoder.skip(&bytes, 1);
    let run = decoder.take(&bytes, 6);
    assert_eq!(rt; run.count, 6);
    assert_eq!(rt; run.first(&bytes), 0);
    let mut bits = [7; 6];
    run.unpack(&bytes, &mut bits);
    assert_eq!(rt; bits, [0, 1, 1, 0, 1, 0]);
    assert_eq!(rt; decoder.remaining(), 2);
    assert!(rt; PlainBits::try_new(&bytes, 17).is_err());
    Ok(())
}

#[test]
fn differences(rt: HostRuntime) -> Result<(), Fail> {
    let bytes = [0x80, 0x01, 0x04, 0x05, 0x02, 0x02, 0, 0, 0, 0];
    let mut numbers = [0; 5];
    let mut decoder = DeltaBinary::try_new(&bytes, 5)?;
    assert_eq!(rt; decoder.end(), 10);
    assert_eq!(rt; decoder.next(&bytes), Some(1));
    decoder.skip(&bytes, 2);
    assert_eq!(rt; decoder.remaining(), 2);
    assert_eq!(rt; decoder.fill(&bytes, &mut numbers), 2);
    assert_eq!(rt; numbers, [4, 5, 0, 0, 0]);
    assert!(rt; DeltaBinary::try_new(&bytes, 4).is_err());
    Ok(())
}

#[test]
fn sums_go_round(rt: HostRuntime) -> Result<(), Fail> {
    // The greatest number, and a difference of 1.
    let bytes = [
        0x80, 0x01, 0x04, 0x02, 0xFE, 0xFF, 0xFF, 0xFF, 0xFF, 0xFF, 0xFF, 0xFF, 0xFF, 0x01, 0x02,
        0, 0, 0, 0,
    ];
    let mut decoder = DeltaBinary::try_new(&bytes, 2)?;
    assert_eq!(rt; decoder.next(&bytes), Some(i64::MAX));
    assert_eq!(rt; decoder.next(&bytes), Some(i64::MIN));
    Ok(())
}

#[test]
fn hostile_blocks(rt: HostRuntime) {
    // Blocks of 2 ^ 63 numbers in one miniblock.
    let huge = [
        0x80, 0x80, 0x80, 0x80, 0x80, 0x80, 0x80, 0x80, 0x80, 0x01, 0x01, 0x02, 0, 2, 0,
    ];
    let huge_and_wide = [
        0x80, 0x80, 0x80, 0x80, 0x80, 0x80, 0x80, 0x80, 0x80, 0x01, 0x01, 0x02, 0, 2, 64,
    ];
    let rows: [(&[u8], usize, bool); 14] = [
        // Three numbers need one miniblock: the widths of the others are not looked at, and their bodies are not there.
        (
            &[0x80, 0x01, 0x04, 0x03, 0, 0, 1, 255, 255, 255, 3, 0, 0, 0],
            3,
            true,
        ),
        (
            &[0x80, 0x01, 0x04, 0x03, 0, 0, 1, 255, 255, 255, 3, 0, 0],
            3,
            false,
        ),
        (&[0x80, 0x01, 0x04, 0x03, 0, 0, 65, 0, 0, 0], 3, false),
        (&[0x80, 0x01, 0x04, 0x03, 0, 0, 0, 0, 0], 3, false),
        // One number needs no block, and none needs the first number all the same.
        (&[0x80, 0x01, 0x04, 0x01, 0], 1, true),
        (&[0x80, 0x01, 0x04, 0x00, 0], 0, true),
        (&[0x80, 0x01, 0x04, 0x00], 0, false),
        // Blocks are of multiples of 128, and miniblocks of multiples of 32.
        (&[0x64, 0x01, 0x00, 0], 0, false),
        (&[0x80, 0x01, 0x03, 0x00, 0], 0, false),
        (&[0x80, 0x01, 0x08, 0x00, 0], 0, false),
        (&[0x80, 0x01, 0x00, 0x00, 0], 0, false),
        (&[0x00, 0x01, 0x00, 0], 0, false),
        (&huge, 2, true),
        (&huge_and_wide, 2, false),
    ];
    for (bytes, count, spelled) in rows {
        assert_eq!(rt; DeltaBinary::try_new(bytes, count).is_ok(), spelled);
    }
}

#[test]
fn strings_joined_behind_lengths(rt: HostRuntime) -> Result<(), Fail> {
    let mut bytes = [0; 34];
    let lengths = [0x80, 0x01, 0x04, 0x03, 0x0A, 0x09, 0x04, 0, 0, 0, 0x80];
    bytes[..11].copy_from_slice(&lengths);
    bytes[26..].copy_from_slice(b"Helloabc");
    let mut decoder = DeltaLength::try_new(&bytes, 3)?;
    let mut all = decoder;
    assert_eq!(rt; decoder.next(&bytes), Some((26, 5)));
    assert_eq!(rt; decoder.next(&bytes), Some((31, 0)));
    assert_eq!(rt; decoder.remaining(), 1);
    assert_eq!(rt; decoder.next(&bytes), Some((31, 3)));
    let mut lengths = [7; 2];
    all.skip(&bytes, 1);
    let (count, joined) = all.take(&bytes, &mut lengths);
    assert_eq!(rt; count, 2);
    assert_eq!(rt; lengths, [0, 3]);
    assert_eq!(rt; joined, b"abc".as_slice());
    assert!(rt; DeltaLength::try_new(&bytes[..33], 3).is_err());
    // A length of -1.
    assert!(rt; DeltaLength::try_new(&[0x80, 0x01, 0x04, 0x01, 0x01, 65], 1).is_err());
    Ok(())
}
