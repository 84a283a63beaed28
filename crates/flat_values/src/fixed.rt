//! Byte strings of one size of a page, and those that were decoded.
ghost use Rattle.std.specs.Prelude.{◌≡◌, ◌↔◌, ◌++◌, ◌<◌, [], ◌∷◌, ℕ, IsTrue, List, Option, length, map, take, drop, None, Some, refl, IfOk, IfErr, IfSome, OnOk, IsSome};
ghost use Rattle.std.specs.Option.{option_copied, option_map, option_map_or};
ghost use Rattle.columns_core.specs.Causes.{ComesOf, ExternalFormat, IsWantOfMemory, OutOfSpec, cause_of, is_invalid_argument};
ghost use Rattle.columns_core.specs.ElementType.{fixed_size};
ghost use Rattle.columns_core.specs.declared.cell.Cell.{Bytes, Cell};
ghost use Rattle.page_decoding.specs.Outcome.{Given, Refused, causes_in};
ghost use Rattle.flat_values.specs.Added.{Adds};
ghost use Rattle.flat_values.specs.Conversion.{Conversion, Keep};
ghost use Rattle.flat_values.specs.Decoded.{IsMaskFor, marked, marked_cells};
ghost use Rattle.flat_values.specs.FixedLeft.{HasEntriesOf, IsAmongFixed, entry_cells, fixed_outcomes};
ghost use Rattle.flat_values.specs.KeysLeft.{IsAmongKeys, keys};
ghost use Rattle.flat_values.specs.Outcomes.{entry_outcome};
ghost use Rattle.parquet_encoding.specs.Places.{bytes_in};
ghost use Rattle.parquet_encoding.specs.Plain.{plain_fixed};
ghost use Rattle.parquet_encoding.specs.PlainLeft.{fixed_left, fixed_values, value_size};

use crate::keys::{CHUNK, KeyPlace};
use crate::validity::{freeze_mask, mark_nulls, mark_values};
use crate::{FixedSizeBinary, IntoArray, ValueDecoder, ValueEncoding, Values};
use columns_core::{DataType, Error, FixedSizeBinaryArray, MutableBitmap, Part};
use page_decoding::DecodedState;
use parquet_encoding::PlainFixed;
use parquet_page::DictPage;
use std::alloc::Global;

/// Decoded byte strings of one size. The mask is empty until the first null, which stands on zero bytes.
#[derive(Drop)]
pub struct DecodedFixed {
    values: FixedSizeBinary,
    validity: MutableBitmap,
}

impl DecodedState for DecodedFixed {
    ghost shown = { λ decoded. marked_cells Bytes decoded.values.items decoded.validity };

    fn len(&self) -> usize {
        self.values.len()
    }
}

impl DecodedFixed {
    /// The array of these byte strings, where the type is one of their size.
    pub fn into_array(self, data_type: DataType) -> Result<FixedSizeBinaryArray, Error>
        requires { IsMaskFor self.values.items self.validity }
        ensures array { IfOk result (λ array.
            array ≡ record { data_type = data_type; items = marked self.values.items self.validity }) }
        ensures ok { IfOk result (λ _. fixed_size data_type ≡ self.values.size) }
        ensures err { IfErr result (λ e. IsTrue (is_invalid_argument e)
            × (fixed_size data_type ≡ self.values.size → ⊥)) }
    {
        let DecodedFixed { values, validity } = self;
        if !is_of_size(&data_type, values.size()) {
            return Err(Error::InvalidArgumentError(Part::Request));
        }
        FixedSizeBinaryArray::try_new(data_type, values.into_values(), freeze_mask(validity))
    }
}

/// Whether a type is one of byte strings of this size, which is above 0.
fn is_of_size(data_type: &DataType, size: usize) -> bool
    requires { 0 < size }
    ensures { IsTrue result ↔ (fixed_size data_type.now ≡ size) }
{
    match data_type {
        DataType::FixedSizeBinary(wanted) => *wanted == size,
        _ => false,
    }
}

/// A place among the byte strings of a page.
#[derive(Clone, Copy)]
pub enum FixedPlace {
    Plain(PlainFixed),
    Keys(KeyPlace),
}

/// No byte strings, with room for so many. Bytes that no memory can hold are told of as want of memory.
fn no_items(alloc: Global, capacity: usize, size: usize) -> Result<FixedSizeBinary, Error>
    requires { 0 < size }
    ensures ok { IfOk result (λ empty. empty ≡ record { size = size; items = [] }) }
    ensures err { IfErr result IsWantOfMemory }
{
    match capacity.checked_mul(size) {
        None => Err(Error::OutOfMemory),
        Some(_) => FixedSizeBinary::with_capacity(alloc, capacity, size),
    }
}

/// Before the first of so many byte strings.
pub(crate) fn open_plain(
    bytes: &[u8],
    size: usize,
    count: usize,
    part: Part,
) -> Result<PlainFixed, Error>
    ensures values { IfOk result (λ place.
        plain_fixed size bytes.now count ≡ Some (map (bytes_in bytes.now) (fixed_values place bytes.now))) }
    ensures among { IfOk result (λ place.
        IsSome (fixed_left place bytes.now) × (value_size place ≡ size)) }
    ensures counted { IfOk result (λ place. length (fixed_values place bytes.now) ≡ count) }
    ensures refused { IfErr result
        (λ e. (cause_of e ≡ Some ExternalFormat) × (plain_fixed size bytes.now count ≡ None)) }
{
    match PlainFixed::try_new(bytes, size, count) {
        Ok(place) => Ok(place),
        Err(_) => Err(Error::ExternalFormat(part)),
    }
}

/// Appends the next byte strings, at most so many.
fn take_plain(
    place: PlainFixed,
    bytes: &[u8],
    items: &mut FixedSizeBinary,
    count: usize,
) -> Result<PlainFixed, Error>
    requires spelled { IsSome (fixed_left place bytes.now) }
    requires size { value_size place ≡ items.old.size }
    requires some { 0 < items.old.size }
    ensures added { OnOk result (items.new
        ≡ record items.old {
          items = items.old.items
              ++ map (bytes_in bytes.now) (take count (fixed_values place bytes.now));
        }) }
    ensures rest { IfOk result (λ new.
        fixed_left new bytes.now ≡ Some (drop count (fixed_values place bytes.now))) }
    ensures size { IfOk result (λ new. value_size new ≡ value_size place) }
    ensures memory { IfErr result IsWantOfMemory }
{
    let mut place = place;
    items.extend_from_plain(place.take(bytes, count))?;
    Ok(place)
}

fn entry_count(dict: Option<&FixedSizeBinary>) -> Option<usize>
    ensures { result ≡
        option_map (λ entries. length (map Bytes entries.items)) (option_copied dict.entry) }
{
    Some(dict?.len())
}

/// The entry that a key names, if there is one.
fn named<'a>(entries: Option<&'a FixedSizeBinary>, key: u32) -> Option<&'a [u8]>
    ensures entry { entry_outcome (entry_cells (option_copied entries.entry)) key
        ≡ option_map_or (λ item. Given (Bytes item)) (option_copied result) (Refused (OutOfSpec ∷ [])) }
    ensures size { IfSome result (λ item. HasEntriesOf (length item.now) (option_copied entries.entry)) }
{
    entries?.get(key as usize)
}

/// Appends the entries that keys name.
fn extend_named(
    items: &mut FixedSizeBinary,
    entries: Option<&FixedSizeBinary>,
    keys: &[u32],
) -> Result<(), Error>
    requires { HasEntriesOf items.old.size (option_copied entries) }
    ensures added { OnOk result (Adds Bytes items.old.items items.new.items
        (map (entry_outcome (entry_cells (option_copied entries.entry))) keys.now)) }
    ensures size { items.new.size ≡ items.old.size }
    ensures cause { ComesOf result
        (causes_in (map (entry_outcome (entry_cells (option_copied entries.entry))) keys.now)) }
{
    for key in keys {
        let Some(item) = named(entries, *key) else {
            return Err(Error::OutOfSpec(Part::Dictionary));
        };
        items.push(item)?;
    }
    Ok(())
}

/// Appends the entries that the next keys name, at most so many.
fn take_named(
    place: KeyPlace,
    bytes: &[u8],
    entries: Option<&FixedSizeBinary>,
    items: &mut FixedSizeBinary,
    count: usize,
) -> Result<KeyPlace, Error>
    requires among { IsAmongKeys bytes.now place }
    requires size { HasEntriesOf items.old.size (option_copied entries) }
    ensures added { OnOk result (Adds Bytes items.old.items items.new.items
        (take count (map (entry_outcome (entry_cells (option_copied entries.entry)))
        (keys place bytes.now)))) }
    ensures rest { IfOk result (λ new. keys new bytes.now ≡ drop count (keys place bytes.now)) }
    ensures among { IfOk result (IsAmongKeys bytes.now) }
    ensures size { items.new.size ≡ items.old.size }
    ensures cause { ComesOf result
        (causes_in (take count (map (entry_outcome (entry_cells (option_copied entries.entry)))
        (keys place bytes.now)))) }
{
    let mut place = place;
    let mut left = count;
    let mut chunk = [0u32; CHUNK];
    while left > 0 {
        let room = &mut chunk[..left.min(CHUNK)];
        let found = place.fill(bytes, room);
        if found == 0 {
            return Ok(place);
        }
        extend_named(items, entries, &room[..found])?;
        left -= found;
    }
    Ok(place)
}

/// Appends the next values, at most so many.
fn take_values(
    place: FixedPlace,
    bytes: &[u8],
    dict: Option<&FixedSizeBinary>,
    items: &mut FixedSizeBinary,
    count: usize,
) -> Result<FixedPlace, Error>
    requires among { IsAmongFixed items.old.size bytes.now place }
    requires dict { HasEntriesOf items.old.size (option_copied dict) }
    requires some { 0 < items.old.size }
    ensures added { OnOk result (Adds Bytes items.old.items items.new.items
        (take count (fixed_outcomes Keep (entry_cells (option_copied dict.entry)) bytes.now place))) }
    ensures rest { IfOk result (λ new.
        fixed_outcomes Keep (entry_cells (option_copied dict.entry)) bytes.now new
        ≡ drop count (fixed_outcomes Keep (entry_cells (option_copied dict.entry)) bytes.now place)) }
    ensures among { IfOk result (IsAmongFixed items.old.size bytes.now) }
    ensures size { OnOk result (items.new.size ≡ items.old.size) }
    ensures cause { ComesOf result
        (causes_in (take count (fixed_outcomes Keep
        (entry_cells (option_copied dict.entry)) bytes.now place))) }
{
    match place {
        FixedPlace::Plain(place) => Ok(FixedPlace::Plain(take_plain(place, bytes, items, count)?)),
        FixedPlace::Keys(place) => Ok(FixedPlace::Keys(take_named(
            place, bytes, dict, items, count,
        )?)),
    }
}

/// Passes over the next values, at most so many.
pub(crate) fn skip_values(place: FixedPlace, bytes: &[u8], count: usize) -> FixedPlace
    requires { (size : ℕ) × IsAmongFixed size bytes.now place }
    ensures rest { (rule : Conversion) (entries : Option (List Cell))
        → fixed_outcomes rule entries bytes.now result
        ≡ drop count (fixed_outcomes rule entries bytes.now place) }
    ensures among { (size : ℕ) →
        IsAmongFixed size bytes.now place → IsAmongFixed size bytes.now result }
{
    match place {
        FixedPlace::Plain(mut place) => {
            place.skip(bytes, count);
            FixedPlace::Plain(place)
        }
        FixedPlace::Keys(mut place) => {
            place.skip(bytes, count);
            FixedPlace::Keys(place)
        }
    }
}

/// Byte strings of one size, above 0, as they are.
#[derive(Clone, Copy)]
pub struct FixedValues {
    size: usize,
    ghost some: { 0 < size },
}

impl FixedValues {
    pub fn new(size: usize) -> Self
        requires { 0 < size }
        ensures { result.size ≡ size }
    {
        FixedValues { size }
    }
}

impl Values for FixedValues {
    type Place = FixedPlace;

    type Dict = FixedSizeBinary;

    type Decoded = DecodedFixed;

    ghost is_own = { λ fixed decoded. (decoded.values.size ≡ fixed.size) × IsMaskFor decoded.values.items decoded.validity };

    ghost is_own_dict = { λ fixed dict. dict.size ≡ fixed.size };

    ghost is_over = { λ fixed bytes place. IsAmongFixed fixed.size bytes place };

    ghost left = { λ _ dict bytes place. fixed_outcomes Keep (entry_cells dict) bytes place };

    ghost most_bytes = { λ _. None };

    ghost own_fits = { λ _ _ _. refl };

    fn take(
        &self,
        bytes: &[u8],
        dict: Option<&FixedSizeBinary>,
        place: &mut FixedPlace,
        decoded: &mut DecodedFixed,
        count: usize,
    ) -> Result<(), Error> {
        let held = decoded.values.len();
        *place = take_values(*place, bytes, dict, &mut decoded.values, count)?;
        let taken = decoded.values.len() - held;
        mark_values(&mut decoded.validity, taken)
    }

    fn skip(&self, bytes: &[u8], place: &mut FixedPlace, count: usize) {
        *place = skip_values(*place, bytes, count);
    }

    fn push_nulls(&self, decoded: &mut DecodedFixed, count: usize) -> Result<(), Error> {
        let held = decoded.values.len();
        decoded.values.extend_constant(count)?;
        mark_nulls(&mut decoded.validity, held, count)
    }

    fn with_capacity(&self, alloc: Global, capacity: usize) -> Result<DecodedFixed, Error> {
        Ok(DecodedFixed {
            values: no_items(alloc, capacity, self.size)?,
            validity: MutableBitmap::with_capacity(alloc, 0)?,
        })
    }
}

impl ValueDecoder for FixedValues {
    ghost use Rattle.parquet_meta.specs.declared.metadata.PhysicalType.TheVariants.{FixedLenByteArray};

    ghost physical = { λ fixed. FixedLenByteArray fixed.size };

    ghost rule = { λ _. Keep };

    ghost dict_shown = { λ _ dict. map Bytes dict.items };

    fn open(
        &self,
        encoding: ValueEncoding,
        bytes: &[u8],
        count: usize,
        dict: Option<&FixedSizeBinary>,
    ) -> Result<FixedPlace, Error> {
        match encoding {
            ValueEncoding::Plain => {
                let place = open_plain(bytes, self.size, count, Part::Values)?;
                Ok(FixedPlace::Plain(place))
            }
            ValueEncoding::Keys => {
                let place = KeyPlace::open(bytes, count, entry_count(dict))?;
                Ok(FixedPlace::Keys(place))
            }
            // Deltas go with no byte strings of one size.
            ValueEncoding::DeltaPacked | ValueEncoding::DeltaLengths => unreachable!(),
        }
    }

    fn read_dict(&self, alloc: Global, page: &DictPage<'_>) -> Result<FixedSizeBinary, Error> {
        let place = open_plain(page.buffer, self.size, page.num_values, Part::Dictionary)?;
        let mut dict = no_items(alloc, page.num_values, self.size)?;
        let _end = take_plain(place, page.buffer, &mut dict, page.num_values)?;
        Ok(dict)
    }
}

impl IntoArray for FixedValues {
    ghost use Rattle.columns_core.specs.Column.{cell_of};

    type Array = FixedSizeBinaryArray;

    ghost is_type = { λ fixed data_type. fixed_size data_type ≡ fixed.size };

    ghost array_type = { λ array. array.data_type };

    ghost array_cells = { λ array. map (cell_of Bytes) array.items };

    fn fits(&self, data_type: &DataType) -> bool {
        is_of_size(data_type, self.size)
    }

    fn into_array(
        &self,
        decoded: DecodedFixed,
        data_type: DataType,
    ) -> Result<FixedSizeBinaryArray, Error> {
        decoded.into_array(data_type)
    }
}
