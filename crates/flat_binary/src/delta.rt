//! Places in pages of byte strings that are joined behind their lengths.
ghost use Rattle.std.specs.Prelude.{◌≡◌, [], List, ℕ, None, Some, true, drop, length, slice_get, unwrap_or, IfErr, IfOk, OnOk};
ghost use Rattle.columns_core.specs.Causes.{ExternalFormat, TellsOf, cause_of};
ghost use Rattle.parquet_encoding.specs.DeltaLength.{delta_length_places};
ghost use Rattle.parquet_page.specs.Content.{DataContent, DataOf, data_content, is_shaped};
ghost use Rattle.parquet_page.specs.Plan.{kept_count, plan};
ghost use Rattle.parquet_page.specs.ValidityLeft.{page_places};
ghost use Rattle.parquet_page.specs.Values.{unless_none};
ghost use Rattle.page_decoding.specs.FilteredLeft.{IsPageOf, filtered_steps};
ghost use Rattle.flat_values.specs.FlatLeft.{value_bytes};
ghost use Rattle.flat_binary.specs.JoinedStrings.{IsAmongStrings, is_joined, joined_causes, string_places, strings_behind};

use columns_core::{Error, Part};
use page_decoding::FilteredOptionalPageValidity;
use parquet_encoding::DeltaLength;
use parquet_meta::PhysicalType;
use parquet_page::{DataPage, DataPageHeader, split_buffer};

/// The number of the encoding.
const DELTA_LENGTH_BYTE_ARRAY: i32 = 6;

/// Whether a page is one of strings that are joined behind their lengths.
fn is_joined_page(page: &DataPage<'_>) -> bool
    ensures { result ≡ is_joined (data_content page.now) }
{
    let encoding = match page.header {
        DataPageHeader::V1 { encoding, .. } => encoding,
        DataPageHeader::V2 { encoding, .. } => encoding,
    };
    encoding == DELTA_LENGTH_BYTE_ARRAY && page.type_.physical_type == PhysicalType::ByteArray
}

/// A place among the stored strings of a page.
#[derive(Clone, Copy)]
pub struct Delta {
    /// None where no string is stored.
    strings: Option<DeltaLength>,
}

impl Delta {
    /// Before the first stored string of a page.
    pub fn try_new(page: &DataPage<'_>) -> Result<Self, Error>
        requires shaped { is_shaped (DataOf (data_content page.now)) ≡ true }
        ensures among { IfOk result (IsAmongStrings (value_bytes (data_content page.now))) }
        ensures strings { let bytes = value_bytes (data_content page.now) in
            IfOk result (λ delta. string_places (data_content page.now) ≡
            Some (strings_behind bytes delta)) }
        ensures ok { OnOk result (joined_causes (data_content page.now) ≡ []) }
        ensures cause { TellsOf result (joined_causes (data_content page.now)) }
    {
        let FilteredDelta { walk: _, delta } = FilteredDelta::try_new(page)?;
        Ok(delta)
    }

    /// Where the next string stands among the values of the page, which is that of `try_new`: its start and its length.
    pub fn next(&mut self, page: &DataPage<'_>) -> Option<(usize, usize)>
        requires { IsAmongStrings (value_bytes (data_content page.now)) self.old }
        ensures place { result ≡
            slice_get (strings_behind (value_bytes (data_content page.now)) self.old) 0 }
        ensures rest { let behind = strings_behind (value_bytes (data_content page.now)) in
            behind self.new ≡ drop 1 (behind self.old) }
        ensures among { IsAmongStrings (value_bytes (data_content page.now)) self.new }
    {
        match &mut self.strings {
            Some(strings) => strings.next(values_of(page)),
            None => None,
        }
    }

    /// How many strings are left.
    pub fn len(&self) -> usize
        ensures { let delta = self.now in
            (bytes : List ℕ) → IsAmongStrings bytes delta →
            result ≡ length (strings_behind bytes delta) }
    {
        match &self.strings {
            Some(strings) => strings.remaining(),
            None => 0,
        }
    }
}

/// The bytes of a page's values.
fn values_of<'a>(page: &DataPage<'a>) -> &'a [u8]
    ensures { result.now ≡ value_bytes (data_content page.now) }
{
    match split_buffer(page) {
        Ok((_, _, values)) => values,
        Err(_) => &[],
    }
}

/// Before the first of `count` strings. Where none is stored, the bytes are not looked at.
fn open_strings(bytes: &[u8], count: usize) -> Result<Delta, Error>
    ensures among { IfOk result (IsAmongStrings bytes.now) }
    ensures strings { let places = unless_none count (delta_length_places bytes.now count) in
        IfOk result (λ delta. places ≡ Some (strings_behind bytes.now delta)) }
    ensures refused { let places = unless_none count (delta_length_places bytes.now count) in
        IfErr result (λ e. (cause_of e ≡ Some ExternalFormat) × (places ≡ None)) }
{
    if count == 0 {
        return Ok(Delta { strings: None });
    }
    match DeltaLength::try_new(bytes, count) {
        Ok(strings) => Ok(Delta {
            strings: Some(strings),
        }),
        Err(_) => Err(Error::ExternalFormat(Part::Values)),
    }
}

/// A place among the selected rows of such a page, and one among its stored strings.
#[derive(Drop)]
pub struct FilteredDelta {
    walk: FilteredOptionalPageValidity,
    delta: Delta,
}

impl FilteredDelta {
    /// Before the first selected row of a page.
    pub fn try_new(page: &DataPage<'_>) -> Result<Self, Error>
        requires shaped { is_shaped (DataOf (data_content page.now)) ≡ true }
        ensures page { IfOk result (λ rows. IsPageOf rows.walk (data_content page.now)) }
        ensures steps { let places = unwrap_or (page_places (data_content page.now)) [] in
            let steps = plan (data_content page.now).selected places in
            IfOk result (λ rows. filtered_steps rows.walk (data_content page.now) ≡ steps) }
        ensures among { let bytes = value_bytes (data_content page.now) in
            IfOk result (λ rows. IsAmongStrings bytes rows.delta) }
        ensures strings { let behind = strings_behind (value_bytes (data_content page.now)) in
            IfOk result (λ rows. string_places (data_content page.now) ≡ Some (behind rows.delta)) }
        ensures ok { OnOk result (joined_causes (data_content page.now) ≡ []) }
        ensures cause { TellsOf result (joined_causes (data_content page.now)) }
    {
        if !is_joined_page(page) {
            return Err(Error::NotYetImplemented(Part::Header));
        }
        let walk = FilteredOptionalPageValidity::try_new(page)?;
        let (_, _, bytes) = split_buffer(page)?;
        let delta = open_strings(bytes, walk.stored_count(page))?;
        Ok(FilteredDelta { walk, delta })
    }

    /// How many selected rows are left.
    pub fn len(&self) -> usize
        ensures { let walk = self.now.walk in
            (page : DataContent) → IsPageOf walk page → result ≡ kept_count (filtered_steps walk page) }
    {
        self.walk.len()
    }
}
