//! Decodes flat pages, by a decoder of their values.
ghost use Rattle.std.specs.Prelude.{◌≡◌, ◌≤◌, true, false, [], ◌++◌, drop, length, map, take, Option, None, Some, IfOk, IfErr, IfSome, OnOk, option_map};
ghost use Rattle.std.specs.Option.{option_copied};
ghost use Rattle.columns_core.specs.Causes.{TellsOf};
ghost use Rattle.parquet_page.specs.Content.{DataContent, data_content};
ghost use Rattle.parquet_page.specs.Opened.{goes_on_dictionary as goes_on_by};
ghost use Rattle.parquet_page.specs.Levels.{present_count};
ghost use Rattle.parquet_page.specs.Spelling.{header_encoding};
ghost use Rattle.parquet_page.specs.ValidityParts.{part_steps, word_places};
ghost use Rattle.parquet_page.specs.Values.{encoding_of as encoding_by, goes_with as goes_with_by, unless_none};
ghost use Rattle.page_decoding.specs.FilteredLeft.{IsPageOf, filtered_steps, stored_values};
ghost use Rattle.parquet_page.specs.Plan.{kept_count};
ghost use Rattle.page_decoding.specs.Bytes.{IsCausedByChunks};
ghost use Rattle.page_decoding.specs.Outcome.{Given};
ghost use Rattle.flat_values.specs.Encodings.{as_encoding};
ghost use Rattle.flat_values.specs.FlatLeft.{IsStateOf, behind_part, behind_run, behind_word, causes_unless_none, given_along, part_outcomes, read_encoding, run_outcomes, values_left, word_outcomes};
ghost use Rattle.flat_values.specs.FlatState.{IsFlatState, state_outcomes};
ghost use Rattle.flat_values.specs.Outcomes.{value_causes, value_outcomes};

use crate::{ValueDecoder, ValueEncoding, Values};
use columns_core::{Error, Part};
use page_decoding::{DecodedState, Decoder, FilteredOptionalPageValidity};
use parquet_meta::PhysicalType;
use parquet_page::{
    DataPage, DataPageHeader, DictPage, Run, ValidityPart, ValidityWord, split_buffer,
};
use std::alloc::Global;

/// Appends the next `count` values, or all that are left.
fn take_values<V: Values>(
    values: &V,
    bytes: &[u8],
    dict: Option<&V::Dict>,
    place: &mut Option<V::Place>,
    decoded: &mut V::Decoded,
    count: usize,
) -> Result<(), Error>
    requires over { IfSome place.old (V.is_over values.now bytes.now) }
    requires own_dict { IfSome (option_copied dict) (V.is_own_dict values.now) }
    requires own { V.is_own values.now decoded.old }
    ensures cells { let found = values_left
        (V.left values.now (option_copied dict.entry) bytes.now) place.old in
        let shown = V.Decoded.shown in
        OnOk result (map Given (shown decoded.new) ≡ map Given (shown decoded.old) ++ take count found) }
    ensures left { let found = values_left (V.left values.now (option_copied dict.entry) bytes.now) in
        OnOk result (found place.new ≡ drop count (found place.old)) }
    ensures over { OnOk result (IfSome place.new (V.is_over values.now bytes.now)) }
    ensures own { OnOk result (V.is_own values.now decoded.new) }
    ensures cause { let found = values_left
        (V.left values.now (option_copied dict.entry) bytes.now) place.old in
        let rows = map Given (V.Decoded.shown decoded.old) ++ take count found in
        IfErr result (IsCausedByChunks (V.most_bytes values.now) None rows) }
{
    match place {
        Some(place) => values.take(bytes, dict, place, decoded, count),
        None => Ok(()),
    }
}

/// Passes over the next `count` values, or all that are left.
fn skip_values<V: Values>(values: &V, bytes: &[u8], place: &mut Option<V::Place>, count: usize)
    requires { IfSome place.old (V.is_over values.now bytes.now) }
    ensures left { let found = λ (dict : Option V.Dict). values_left (V.left values.now dict bytes.now) in
        (dict : Option V.Dict) → found dict place.new ≡ drop count (found dict place.old) }
    ensures over { IfSome place.new (V.is_over values.now bytes.now) }
{
    if let Some(place) = place {
        values.skip(bytes, place, count);
    }
}

/// Appends what the rows of a run give.
fn add_run<V: Values>(
    values: &V,
    bytes: &[u8],
    dict: Option<&V::Dict>,
    place: &mut Option<V::Place>,
    decoded: &mut V::Decoded,
    run: Run,
) -> Result<(), Error>
    requires over { IfSome place.old (V.is_over values.now bytes.now) }
    requires own_dict { IfSome (option_copied dict) (V.is_own_dict values.now) }
    requires own { V.is_own values.now decoded.old }
    ensures cells { let found = values_left
        (V.left values.now (option_copied dict.entry) bytes.now) place.old in
        let shown = V.Decoded.shown in
        OnOk result (map Given (shown decoded.new)
        ≡ map Given (shown decoded.old) ++ run_outcomes run found) }
    ensures left { let found = values_left (V.left values.now (option_copied dict.entry) bytes.now) in
        OnOk result (found place.new ≡ behind_run run (found place.old)) }
    ensures over { OnOk result (IfSome place.new (V.is_over values.now bytes.now)) }
    ensures own { OnOk result (V.is_own values.now decoded.new) }
    ensures cause { let found = values_left
        (V.left values.now (option_copied dict.entry) bytes.now) place.old in
        let rows = map Given (V.Decoded.shown decoded.old) ++ run_outcomes run found in
        IfErr result (IsCausedByChunks (V.most_bytes values.now) None rows) }
{
    match run {
        Run::Present(rows) => take_values(values, bytes, dict, place, decoded, rows),
        Run::Null(rows) => values.push_nulls(decoded, rows),
        Run::Passed(count) => {
            skip_values(values, bytes, place, count);
            Ok(())
        }
    }
}

/// Appends what the rows of a word give. Where no value is stored, all are null.
fn add_word<V: Values>(
    values: &V,
    bytes: &[u8],
    dict: Option<&V::Dict>,
    place: &mut Option<V::Place>,
    decoded: &mut V::Decoded,
    word: ValidityWord,
) -> Result<(), Error>
    requires over { IfSome place.old (V.is_over values.now bytes.now) }
    requires own_dict { IfSome (option_copied dict) (V.is_own_dict values.now) }
    requires own { V.is_own values.now decoded.old }
    requires enough { let found = values_left (V.left values.now (option_copied dict) bytes.now) place.old in
        present_count (word_places word) ≤ length found }
    ensures cells { let found = values_left
        (V.left values.now (option_copied dict.entry) bytes.now) place.old in
        let shown = V.Decoded.shown in
        OnOk result (map Given (shown decoded.new)
        ≡ map Given (shown decoded.old) ++ word_outcomes word found) }
    ensures left { let found = values_left (V.left values.now (option_copied dict.entry) bytes.now) in
        OnOk result (found place.new ≡ behind_word word (found place.old)) }
    ensures over { OnOk result (IfSome place.new (V.is_over values.now bytes.now)) }
    ensures own { OnOk result (V.is_own values.now decoded.new) }
    ensures cause { let found = values_left
        (V.left values.now (option_copied dict.entry) bytes.now) place.old in
        let rows = map Given (V.Decoded.shown decoded.old) ++ word_outcomes word found in
        IfErr result (IsCausedByChunks (V.most_bytes values.now) None rows) }
{
    match place {
        Some(place) => values.take_word(bytes, dict, place, decoded, word),
        None => values.push_nulls(decoded, word.rows),
    }
}

/// Appends what the rows of a part give.
fn add_part<V: Values>(
    values: &V,
    bytes: &[u8],
    dict: Option<&V::Dict>,
    place: &mut Option<V::Place>,
    decoded: &mut V::Decoded,
    part: ValidityPart,
) -> Result<(), Error>
    requires over { IfSome place.old (V.is_over values.now bytes.now) }
    requires own_dict { IfSome (option_copied dict) (V.is_own_dict values.now) }
    requires own { V.is_own values.now decoded.old }
    requires enough { let found = values_left (V.left values.now (option_copied dict) bytes.now) place.old in
        stored_values (part_steps part) ≤ length found }
    ensures cells { let found = values_left
        (V.left values.now (option_copied dict.entry) bytes.now) place.old in
        let shown = V.Decoded.shown in
        OnOk result (map Given (shown decoded.new)
        ≡ map Given (shown decoded.old) ++ part_outcomes part found) }
    ensures left { let found = values_left (V.left values.now (option_copied dict.entry) bytes.now) in
        OnOk result (found place.new ≡ behind_part part (found place.old)) }
    ensures over { OnOk result (IfSome place.new (V.is_over values.now bytes.now)) }
    ensures own { OnOk result (V.is_own values.now decoded.new) }
    ensures cause { let found = values_left
        (V.left values.now (option_copied dict.entry) bytes.now) place.old in
        let rows = map Given (V.Decoded.shown decoded.old) ++ part_outcomes part found in
        IfErr result (IsCausedByChunks (V.most_bytes values.now) None rows) }
{
    match part {
        ValidityPart::Run(run) => add_run(values, bytes, dict, place, decoded, run),
        ValidityPart::Word(word) => add_word(values, bytes, dict, place, decoded, word),
    }
}

/// The encoding of this number, if it is read.
fn encoding_of(number: i32) -> Option<ValueEncoding>
    ensures { option_map as_encoding result ≡ encoding_by number }
{
    match number {
        0 => Some(ValueEncoding::Plain),
        2 | 8 => Some(ValueEncoding::Keys),
        5 => Some(ValueEncoding::DeltaPacked),
        6 => Some(ValueEncoding::DeltaLengths),
        _ => None,
    }
}

/// Whether values of a type are read in this encoding.
fn goes_with(encoding: ValueEncoding, physical: PhysicalType) -> bool
    ensures { result ≡ goes_with_by (as_encoding encoding) physical }
{
    match encoding {
        ValueEncoding::Plain => !matches!(physical, PhysicalType::Float | PhysicalType::Double),
        ValueEncoding::Keys => !matches!(
            physical,
            PhysicalType::Boolean | PhysicalType::Float | PhysicalType::Double
        ),
        ValueEncoding::DeltaPacked => {
            matches!(physical, PhysicalType::Int32 | PhysicalType::Int64)
        }
        ValueEncoding::DeltaLengths => matches!(physical, PhysicalType::ByteArray),
    }
}

/// Whether values in this encoding are read where there is a dictionary, or where there is none.
fn goes_on_dictionary(encoding: ValueEncoding, has_dictionary: bool) -> bool
    ensures { result ≡ goes_on_by false has_dictionary (as_encoding encoding) }
{
    match encoding {
        ValueEncoding::Keys => has_dictionary,
        ValueEncoding::Plain | ValueEncoding::DeltaPacked | ValueEncoding::DeltaLengths => true,
    }
}

/// The number of a page's encoding.
fn encoding_number(header: &DataPageHeader) -> i32
    ensures { result ≡ header_encoding header.now }
{
    match header {
        DataPageHeader::V1 { encoding, .. } => *encoding,
        DataPageHeader::V2 { encoding, .. } => *encoding,
    }
}

/// The encoding of a page, if it is read over a dictionary or without one.
pub(crate) fn page_encoding(page: &DataPage<'_>, has_dictionary: bool) -> Option<ValueEncoding>
    ensures { option_map as_encoding result ≡ read_encoding has_dictionary (data_content page.now) }
{
    let encoding = encoding_of(encoding_number(&page.header))?;
    let goes = goes_with(encoding, page.type_.physical_type);
    (goes && goes_on_dictionary(encoding, has_dictionary)).then_some(encoding)
}

/// Before the first of `count` values. Where none is stored, the bytes are not looked at.
fn open_values<V: ValueDecoder>(
    decoder: &V,
    encoding: ValueEncoding,
    bytes: &[u8],
    count: usize,
    dict: Option<&V::Dict>,
) -> Result<Option<V::Place>, Error>
    requires carried { goes_with_by (as_encoding encoding) (V.physical decoder.now) ≡ true }
    requires own { IfSome (option_copied dict) (V.is_own_dict decoder.now) }
    ensures values { IfOk result (λ values.
        unless_none count (value_outcomes (V.rule decoder.now) (V.physical decoder.now)
        (option_map (V.dict_shown decoder.now) (option_copied dict.entry))
        (as_encoding encoding) bytes.now count)
        ≡ Some (values_left (V.left decoder.now (option_copied dict.entry) bytes.now) values)) }
    ensures over { IfOk result (λ values. IfSome values (V.is_over decoder.now bytes.now)) }
    ensures ok { OnOk result (causes_unless_none count
        (value_causes (V.physical decoder.now)
        (option_map (λ dict. length (V.dict_shown decoder.now dict)) (option_copied dict.entry))
        (as_encoding encoding) bytes.now count) ≡ []) }
    ensures cause { TellsOf result (causes_unless_none count
        (value_causes (V.physical decoder.now)
        (option_map (λ dict. length (V.dict_shown decoder.now dict)) (option_copied dict.entry))
        (as_encoding encoding) bytes.now count)) }
{
    if count == 0 {
        return Ok(None);
    }
    Ok(Some(decoder.open(encoding, bytes, count, dict)?))
}

/// Appends the next `additional` selected rows, or all that are left.
pub(crate) fn add_rows<V: Values>(
    values: &V,
    page: &DataPage<'_>,
    bytes: &[u8],
    dict: Option<&V::Dict>,
    walk: &mut FilteredOptionalPageValidity,
    place: &mut Option<V::Place>,
    decoded: &mut V::Decoded,
    additional: usize,
) -> Result<(), Error>
    requires state { let left = V.left values.now (option_copied dict) in
        IsStateOf (V.is_over values.now) left bytes.now walk.old place.old (data_content page.now) }
    requires own_dict { IfSome (option_copied dict) (V.is_own_dict values.now) }
    requires own { V.is_own values.now decoded.old }
    ensures rows { let found = values_left
        (V.left values.now (option_copied dict.entry) bytes.now) place.old in
        let rows = given_along (filtered_steps walk.old (data_content page.now)) found in
        let shown = V.Decoded.shown in
        OnOk result (map Given (shown decoded.new) ≡
        map Given (shown decoded.old) ++ take additional rows) }
    ensures left { let found = values_left (V.left values.now (option_copied dict.entry) bytes.now) in
        let before = given_along (filtered_steps walk.old (data_content page.now)) (found place.old) in
        let after = given_along (filtered_steps walk.new (data_content page.now)) (found place.new) in
        OnOk result (after ≡ drop additional before) }
    ensures state { let left = V.left values.now (option_copied dict.entry) in
        OnOk result (IsStateOf (V.is_over values.now) left bytes.now walk.new place.new
        (data_content page.now)) }
    ensures own { OnOk result (V.is_own values.now decoded.new) }
    ensures cause { let found = values_left
        (V.left values.now (option_copied dict.entry) bytes.now) place.old in
        let own = given_along (filtered_steps walk.old (data_content page.now)) found in
        let rows = map Given (V.Decoded.shown decoded.old) ++ take additional own in
        IfErr result (IsCausedByChunks (V.most_bytes values.now) None rows) }
{
    let mut wanted = additional;
    while wanted > 0 {
        let Some(part) = walk.next_part(page, wanted) else {
            return Ok(());
        };
        add_part(values, bytes, dict, place, decoded, part)?;
        wanted -= part.rows();
    }
    Ok(())
}

/// A place in a page: a walk over its selected rows, and one among its values where some are stored.
#[derive(Drop)]
pub struct FlatState<S> {
    pub(crate) walk: FilteredOptionalPageValidity,
    pub(crate) values: Option<S>,
}

impl<S> FlatState<S> {
    /// How many selected rows are left.
    pub fn len(&self) -> usize
        ensures { let walk = self.now.walk in
            (page : DataContent) → IsPageOf walk page → result ≡ kept_count (filtered_steps walk page) }
    {
        self.walk.len()
    }
}

/// Appends the next `additional` selected rows of a page to decoded values, or all that are left.
pub fn extend_rows<V: Values>(
    values: &V,
    page: &DataPage<'_>,
    dict: Option<&V::Dict>,
    state: &mut FlatState<V::Place>,
    decoded: &mut V::Decoded,
    additional: usize,
) -> Result<(), Error>
    requires state { let left = V.left values.now (option_copied dict) in
        IsFlatState (V.is_over values.now) left (data_content page.now) state.old }
    requires own_dict { IfSome (option_copied dict) (V.is_own_dict values.now) }
    requires own { V.is_own values.now decoded.old }
    ensures rows { let left = V.left values.now (option_copied dict.entry) in
        let rows = state_outcomes left (data_content page.now) state.old in
        let shown = V.Decoded.shown in
        OnOk result (map Given (shown decoded.new) ≡
        map Given (shown decoded.old) ++ take additional rows) }
    ensures left { let left = V.left values.now (option_copied dict.entry) in
        let rows = state_outcomes left (data_content page.now) in
        OnOk result (rows state.new ≡ drop additional (rows state.old)) }
    ensures state { let left = V.left values.now (option_copied dict.entry) in
        OnOk result (IsFlatState (V.is_over values.now) left (data_content page.now) state.new) }
    ensures own { OnOk result (V.is_own values.now decoded.new) }
    ensures cause { let left = V.left values.now (option_copied dict.entry) in
        let own = state_outcomes left (data_content page.now) state.old in
        let rows = map Given (V.Decoded.shown decoded.old) ++ take additional own in
        IfErr result (IsCausedByChunks (V.most_bytes values.now) None rows) }
{
    let (_, _, bytes) = split_buffer(page)?;
    add_rows(
        values,
        page,
        bytes,
        dict,
        &mut state.walk,
        &mut state.values,
        decoded,
        additional,
    )
}

/// Decodes required and optional pages, whole ones and those with selected rows, by a decoder of their values.
#[derive(Drop)]
pub struct FlatDecoder<V> {
    pub values: V,
}

impl<V: ValueDecoder> Decoder for FlatDecoder<V> {
    ghost use Rattle.std.specs.Prelude.{◌≡◌};
    ghost use Rattle.flat_values.specs.FlatState.{IsFlatState, state_outcomes};
    ghost use Rattle.flat_values.specs.Outcomes.{fitted_by, selected_outcomes};

    type State = FlatState<V::Place>;

    type Dict = V::Dict;

    type DecodedState = V::Decoded;

    ghost entries = { λ decoder. fitted_by (V.most_bytes decoder.values) (V.rule decoder.values) (V.physical decoder.values) };

    ghost outcomes = { λ decoder entries page. selected_outcomes (V.rule decoder.values) entries page };

    ghost takes = { λ decoder page. page.type.physical_type ≡ V.physical decoder.values };

    ghost dict_shown = { λ decoder dict. V.dict_shown decoder.values dict };

    ghost is_state = { λ decoder dict page state. IsFlatState (V.is_over decoder.values) (V.left decoder.values dict) page state };

    ghost left = { λ decoder dict page state. state_outcomes (V.left decoder.values dict) page state };

    ghost is_own = { λ decoder decoded. V.is_own decoder.values decoded };

    ghost is_own_dict = { λ decoder dict. V.is_own_dict decoder.values dict };

    ghost most_bytes = { λ decoder. V.most_bytes decoder.values };

    ghost own_fits = { λ decoder decoded own. V.own_fits decoder.values decoded own };

    fn build_state(
        &self,
        page: &DataPage<'_>,
        dict: Option<&Self::Dict>,
    ) -> Result<Self::State, Error> {
        let Some(encoding) = page_encoding(page, dict.is_some()) else {
            return Err(Error::NotYetImplemented(Part::Header));
        };
        let walk = FilteredOptionalPageValidity::try_new(page)?;
        let (_, _, bytes) = split_buffer(page)?;
        let count = walk.stored_count(page);
        let values = open_values(&self.values, encoding, bytes, count, dict)?;
        Ok(FlatState { walk, values })
    }

    fn state_len(&self, state: &Self::State) -> usize {
        state.walk.len()
    }

    fn with_capacity(&self, alloc: Global, capacity: usize) -> Result<Self::DecodedState, Error> {
        self.values.with_capacity(alloc, capacity)
    }

    fn extend_from_state(
        &self,
        page: &DataPage<'_>,
        dict: Option<&Self::Dict>,
        state: &mut Self::State,
        decoded: &mut Self::DecodedState,
        additional: usize,
    ) -> Result<(), Error> {
        extend_rows(&self.values, page, dict, state, decoded, additional)
    }

    fn deserialize_dict(&self, alloc: Global, page: &DictPage<'_>) -> Result<Self::Dict, Error> {
        self.values.read_dict(alloc, page)
    }
}
