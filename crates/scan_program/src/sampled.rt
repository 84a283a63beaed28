//! The sample that the first word of a command line may name.
ghost use Rattle.std.specs.Prelude.{◌≡◌};
ghost use Rattle.scan_program.specs.Sampled as spec;

use pq_common::count;

/// The most digits of a sample's numbers.
const MOST_DIGITS: usize = 10;

/// The rows and the seed of the sample that the first word names, `@sample:ROWS:SEED`.
pub(crate) fn sample_named(words: &[String]) -> Option<(u32, u32)>
    ensures { result ≡ spec.sample_in words.now }
{
    sample_of(words.first()?.as_str())
}

/// The rows and the seed of the sample that a text names.
fn sample_of(file: &str) -> Option<(u32, u32)>
    ensures { result ≡ spec.sample_of file.now }
{
    let (rows, seed) = file.strip_prefix("@sample:")?.split_once(':')?;
    Some((short_number(rows)?, short_number(seed)?))
}

/// The number that 1 to 10 decimal digits spell, if it has 32 bits.
fn short_number(digits: &str) -> Option<u32>
    ensures { result ≡ spec.short_number digits.now }
{
    if digits.len() > MOST_DIGITS {
        return None;
    }
    u32::try_from(count(digits.as_bytes())?).ok()
}
