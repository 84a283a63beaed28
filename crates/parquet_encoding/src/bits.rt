//! Numbers in the bits of bytes, read by words of 64 bits.
ghost use Rattle.std.specs.Prelude.{◌≡◌, ◌^◌, ◌%◌, ◌*◌, ◌+◌, ◌/◌, ◌<◌, ◌≤◌, length, drop};
ghost use Rattle.parquet_base.specs.Bytes.{little_endian};
ghost use Rattle.parquet_encoding.specs.Bits.{bits_at, packed};

/// The bits of a word.
const WORD: usize = 64;

/// The most bits of numbers of which four lie in one word, whichever bit of a byte they begin at.
const HALF: u32 = 14;

/// So many bytes hold the words that begin in eight numbers of up to 32 bits.
const WINDOW: usize = 36;

/// The most bits of a number that lies in the word that begins with its first byte.
pub(crate) const INSIDE: u32 = 57;

/// So many bytes hold the words that begin in eight numbers of up to 57 bits.
const WIDE_WINDOW: usize = 58;

/// The eight bytes from a place on as one number, the first byte lowest. Bytes past the end count as 0.
pub(crate) fn word_at(bytes: &[u8], place: usize) -> u64
    requires { place ≤ length bytes.now }
    ensures { result ≡ little_endian (drop place bytes.now) % 2 ^ 64 }
{
    let window = &bytes[place..];
    match window.first_chunk::<8>() {
        Some(word) => u64::from_le_bytes(*word),
        None => short_word(window),
    }
}

#[cold]
fn short_word(bytes: &[u8]) -> u64
    requires { length bytes.now < 8 }
    ensures { result ≡ little_endian bytes.now }
{
    let mut word = [0u8; 8];
    word[..bytes.len()].copy_from_slice(bytes);
    u64::from_le_bytes(word)
}

/// The number in the `width` bits from bit `shift` of a word.
fn field(word: u64, shift: usize, width: u32) -> u32
    requires narrow { width ≤ 32 }
    requires within { shift + width ≤ 64 }
    requires inside { shift < 64 }
    ensures { result ≡ word / 2 ^ shift % 2 ^ width }
{
    ((word >> shift) & ((1 << width) - 1)) as u32
}

/// The number in the `width` bits from bit `bit` behind a place.
#[inline(always)]
pub(crate) fn value_at(bytes: &[u8], place: usize, bit: usize, width: u32) -> u32
    requires narrow { width ≤ 32 }
    requires within { 8 * place + (bit + width) ≤ 8 * length bytes.now }
    ensures { result ≡ bits_at bytes.now (8 * place + bit) width }
{
    field(word_at(bytes, place + bit / 8), bit % 8, width)
}

/// The eight bytes from a place on as one number, the first byte lowest, where there are so many.
#[inline(always)]
fn word_inside(bytes: &[u8], place: usize) -> u64
    requires { place + 8 ≤ length bytes.now }
    ensures { result ≡ little_endian (drop place bytes.now) % 2 ^ 64 }
{
    let Some(word) = bytes[place..place + 8].first_chunk::<8>() else {
        unreachable!()
    };
    u64::from_le_bytes(*word)
}

/// The number in the `width` bits from bit `bit` behind a place, where the word that begins with its first byte lies in the bytes.
#[inline(always)]
fn value_inside(bytes: &[u8], place: usize, bit: usize, width: u32) -> u32
    requires narrow { width ≤ 32 }
    requires within { place + bit / 8 + 8 ≤ length bytes.now }
    ensures { result ≡ bits_at bytes.now (8 * place + bit) width }
{
    field(word_inside(bytes, place + bit / 8), bit % 8, width)
}

/// Writes the eight numbers in the bits from bit `bit` behind a place on. Each way writes them itself, so that they need not meet in
/// memory before.
#[inline(always)]
pub(crate) fn unpack_eight(bytes: &[u8], place: usize, bit: usize, width: u32, out: &mut [u32])
    requires narrow { width ≤ 32 }
    requires low { bit < 8 }
    requires within { 8 * place + (bit + 8 * width) ≤ 8 * length bytes.now }
    requires room { length out.old ≡ 8 }
    ensures { out.new ≡ packed bytes.now width (8 * place + bit) 8 }
{
    let Some(eight) = out.as_mut_array::<8>() else {
        unreachable!()
    };
    if bit + 8 * width as usize <= WORD {
        *eight = eight_in_word(bytes, place, bit, width);
    } else if width <= HALF {
        *eight = eight_in_halves(bytes, place, bit, width);
    } else if bytes.len() - place >= WINDOW {
        *eight = eight_in_words(bytes, place, bit, width);
    } else {
        *eight = eight_at_end(bytes, place, bit, width);
    }
}

/// Eight numbers that lie in one word.
#[inline(always)]
fn eight_in_word(bytes: &[u8], place: usize, bit: usize, width: u32) -> [u32; 8]
    requires low { bit < 8 }
    requires fits { bit + 8 * width ≤ 64 }
    requires within { place ≤ length bytes.now }
    ensures { result ≡ packed bytes.now width (8 * place + bit) 8 }
{
    let word = word_at(bytes, place);
    let step = width as usize;
    [
        field(word, bit, width),
        field(word, bit + step, width),
        field(word, bit + 2 * step, width),
        field(word, bit + 3 * step, width),
        field(word, bit + 4 * step, width),
        field(word, bit + 5 * step, width),
        field(word, bit + 6 * step, width),
        field(word, bit + 7 * step, width),
    ]
}

/// Eight numbers, of which four lie in one word and four in another.
#[inline(always)]
fn eight_in_halves(bytes: &[u8], place: usize, bit: usize, width: u32) -> [u32; 8]
    requires low { bit < 8 }
    requires few { width ≤ 14 }
    requires within { 8 * place + (bit + 8 * width) ≤ 8 * length bytes.now }
    ensures { result ≡ packed bytes.now width (8 * place + bit) 8 }
{
    let step = width as usize;
    let middle = bit + 4 * step;
    let low = word_at(bytes, place);
    let high = word_at(bytes, place + middle / 8);
    let shift = middle % 8;
    [
        field(low, bit, width),
        field(low, bit + step, width),
        field(low, bit + 2 * step, width),
        field(low, bit + 3 * step, width),
        field(high, shift, width),
        field(high, shift + step, width),
        field(high, shift + 2 * step, width),
        field(high, shift + 3 * step, width),
    ]
}

/// Eight numbers, each of them from the word that begins with its first byte.
#[inline(always)]
fn eight_in_words(bytes: &[u8], place: usize, bit: usize, width: u32) -> [u32; 8]
    requires narrow { width ≤ 32 }
    requires low { bit < 8 }
    requires window { place + 36 ≤ length bytes.now }
    ensures { result ≡ packed bytes.now width (8 * place + bit) 8 }
{
    let step = width as usize;
    [
        value_inside(bytes, place, bit, width),
        value_inside(bytes, place, bit + step, width),
        value_inside(bytes, place, bit + 2 * step, width),
        value_inside(bytes, place, bit + 3 * step, width),
        value_inside(bytes, place, bit + 4 * step, width),
        value_inside(bytes, place, bit + 5 * step, width),
        value_inside(bytes, place, bit + 6 * step, width),
        value_inside(bytes, place, bit + 7 * step, width),
    ]
}

/// The same wherever they lie in the bytes, since those words may reach past the end.
#[cold]
#[inline(never)]
fn eight_at_end(bytes: &[u8], place: usize, bit: usize, width: u32) -> [u32; 8]
    requires narrow { width ≤ 32 }
    requires within { 8 * place + (bit + 8 * width) ≤ 8 * length bytes.now }
    requires low { bit < 8 }
    ensures { result ≡ packed bytes.now width (8 * place + bit) 8 }
{
    let step = width as usize;
    [
        value_at(bytes, place, bit, width),
        value_at(bytes, place, bit + step, width),
        value_at(bytes, place, bit + 2 * step, width),
        value_at(bytes, place, bit + 3 * step, width),
        value_at(bytes, place, bit + 4 * step, width),
        value_at(bytes, place, bit + 5 * step, width),
        value_at(bytes, place, bit + 6 * step, width),
        value_at(bytes, place, bit + 7 * step, width),
    ]
}

/// The low bits of a word.
fn low_bits(word: u64, width: u32) -> u64
    requires { width ≤ 64 }
    ensures { result ≡ word % 2 ^ width }
{
    if width < 64 {
        word & ((1 << width) - 1)
    } else {
        word
    }
}

/// The number of up to 64 bits from bit `bit` behind a place on.
pub(crate) fn wide_at(bytes: &[u8], place: usize, bit: usize, width: u32) -> u64
    requires wide { width ≤ 64 }
    requires within { 8 * place + (bit + width) ≤ 8 * length bytes.now }
    ensures { result ≡ bits_at bytes.now (8 * place + bit) width }
{
    let (start, shift) = (place + bit / 8, bit % 8);
    let low = word_at(bytes, start) >> shift;
    if shift + width as usize <= WORD {
        low_bits(low, width)
    } else {
        let high = u64::from(bytes[start + 8]) << (WORD - shift);
        low_bits(low | high, width)
    }
}

/// The number of up to 57 bits from bit `bit` behind a place on, where the word that begins with its first byte lies in the bytes.
#[inline(always)]
fn wide_inside(bytes: &[u8], place: usize, bit: usize, width: u32) -> u64
    requires inside { width ≤ 57 }
    requires within { place + bit / 8 + 8 ≤ length bytes.now }
    ensures { result ≡ bits_at bytes.now (8 * place + bit) width }
{
    low_bits(word_inside(bytes, place + bit / 8) >> (bit % 8), width)
}

/// The eight numbers of up to 64 bits from bit `bit` behind a place on.
#[inline(always)]
pub(crate) fn eight_wide_at(bytes: &[u8], place: usize, bit: usize, width: u32) -> [u64; 8]
    requires wide { width ≤ 64 }
    requires low { bit < 8 }
    requires within { 8 * place + (bit + 8 * width) ≤ 8 * length bytes.now }
    ensures { result ≡ packed bytes.now width (8 * place + bit) 8 }
{
    if bit + 8 * width as usize <= WORD {
        eight_in_word(bytes, place, bit, width).map(u64::from)
    } else if width <= HALF {
        eight_in_halves(bytes, place, bit, width).map(u64::from)
    } else {
        eight_wide_in_words(bytes, place, bit, width)
    }
}

/// Eight numbers of up to 64 bits, each of them from the word that begins with its first byte.
#[inline(always)]
fn eight_wide_in_words(bytes: &[u8], place: usize, bit: usize, width: u32) -> [u64; 8]
    requires wide { width ≤ 64 }
    requires within { 8 * place + (bit + 8 * width) ≤ 8 * length bytes.now }
    requires low { bit < 8 }
    ensures { result ≡ packed bytes.now width (8 * place + bit) 8 }
{
    if width > INSIDE || bytes.len() - place < WIDE_WINDOW {
        return eight_wide_anywhere(bytes, place, bit, width);
    }
    let step = width as usize;
    [
        wide_inside(bytes, place, bit, width),
        wide_inside(bytes, place, bit + step, width),
        wide_inside(bytes, place, bit + 2 * step, width),
        wide_inside(bytes, place, bit + 3 * step, width),
        wide_inside(bytes, place, bit + 4 * step, width),
        wide_inside(bytes, place, bit + 5 * step, width),
        wide_inside(bytes, place, bit + 6 * step, width),
        wide_inside(bytes, place, bit + 7 * step, width),
    ]
}

/// The same where a number may lie in two words, or words may reach past the end of the bytes.
#[inline(always)]
pub(crate) fn eight_wide_anywhere(bytes: &[u8], place: usize, bit: usize, width: u32) -> [u64; 8]
    requires wide { width ≤ 64 }
    requires within { 8 * place + (bit + 8 * width) ≤ 8 * length bytes.now }
    requires low { bit < 8 }
    ensures { result ≡ packed bytes.now width (8 * place + bit) 8 }
{
    let step = width as usize;
    [
        wide_at(bytes, place, bit, width),
        wide_at(bytes, place, bit + step, width),
        wide_at(bytes, place, bit + 2 * step, width),
        wide_at(bytes, place, bit + 3 * step, width),
        wide_at(bytes, place, bit + 4 * step, width),
        wide_at(bytes, place, bit + 5 * step, width),
        wide_at(bytes, place, bit + 6 * step, width),
        wide_at(bytes, place, bit + 7 * step, width),
    ]
}

/// The byte and the bit in it that lie `count` numbers further on.
#[inline(always)]
pub(crate) fn moved(place: usize, bit: usize, width: u32, count: usize) -> (usize, usize)
    requires low { bit < 8 }
    requires narrow { width ≤ 64 }
    requires within { 8 * place + (bit + count * width) < 2 ^ 67 }
    ensures place { 8 * result.0 + result.1 ≡ 8 * place + (bit + count * width) }
    ensures low { result.1 < 8 }
{
    let step = width as usize;
    let bits = bit + count % 8 * step;
    (place + count / 8 * step + bits / 8, bits % 8)
}
