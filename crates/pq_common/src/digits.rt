//! Numbers as text: on their way to a sink, or in place.
ghost use Rattle.std.specs.Prelude.{◌≡◌, ◌+◌, ◌≤◌, ◌++◌, decimal, drop, length};
ghost use Rattle.std.specs.Fmt.{signed_decimal};
ghost use Rattle.pq_common.specs.Taken.{TakesBytes};

use crate::block::Block;
use crate::sink::Sink;
use itoa::{Buffer, write_digits};
use parquet_meta::Failed;

impl Block {
    /// Takes the decimal digits of a count.
    pub fn push_unsigned<K: Sink>(&mut self, out: &mut K, number: usize) -> Result<(), Failed>
        ensures { TakesBytes K.Sink out.old out.new (self.old ++ decimal number) self.new result }
    {
        let mut buffer = Buffer::new();
        self.push(out, buffer.format(number).as_bytes())
    }

    /// Takes a label, and the decimal digits of a count behind it.
    pub fn push_labelled<K: Sink>(
        &mut self,
        out: &mut K,
        label: &[u8],
        number: usize,
    ) -> Result<(), Failed>
        ensures { let text = label.now ++ decimal number in
            TakesBytes K.Sink out.old out.new (self.old ++ text) self.new result }
    {
        self.push(out, label)?;
        self.push_unsigned(out, number)
    }

    /// Takes the decimal digits of a number, behind a minus where it is negative.
    pub(crate) fn push_signed<K: Sink>(&mut self, out: &mut K, number: i128) -> Result<(), Failed>
        ensures { TakesBytes K.Sink out.old out.new (self.old ++ signed_decimal number) self.new result }
    {
        let mut buffer = Buffer::new();
        match i64::try_from(number) {
            Ok(short) => self.push(out, buffer.format(short).as_bytes()),
            Err(_) => self.push(out, buffer.format(number).as_bytes()),
        }
    }
}

/// Writes a number of 32 bits before a place, and says where it begins.
pub(crate) fn write_i32(block: &mut [u8], end: usize, number: i32) -> usize
    requires { (11 ≤ end) × (end ≤ length block.old) }
    ensures start { (result ≤ end) × (end ≤ result + 11) }
    ensures written { drop result block.new ≡ signed_decimal number ++ drop end block.old }
{
    let start = write_digits(number.unsigned_abs() as u64, block, end);
    if number >= 0 {
        return start;
    }
    block[start - 1] = b'-';
    start - 1
}

/// Writes a number of 64 bits before a place, and says where it begins.
pub(crate) fn write_i64(block: &mut [u8], end: usize, number: i64) -> usize
    requires { (20 ≤ end) × (end ≤ length block.old) }
    ensures start { (result ≤ end) × (end ≤ result + 20) }
    ensures written { drop result block.new ≡ signed_decimal number ++ drop end block.old }
{
    let start = write_digits(number.unsigned_abs(), block, end);
    if number >= 0 {
        return start;
    }
    block[start - 1] = b'-';
    start - 1
}
