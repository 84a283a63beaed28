//! How the stored values of a page are read.
ghost use Rattle.std.specs.Prelude.{◌≡◌, true, List, [], length, Some, Ok, IfOk, IfSome, OnOk, option_map};
ghost use Rattle.std.specs.Option.{option_copied};
ghost use Rattle.columns_core.specs.Causes.{ComesOf, TellsOf};
ghost use Rattle.columns_core.specs.declared.cell.Cell.{Cell};
ghost use Rattle.parquet_page.specs.Content.{dict_content};
ghost use Rattle.parquet_page.specs.Values.{goes_with};
ghost use Rattle.page_decoding.specs.Outcome.{causes_in, refusal_of};
ghost use Rattle.flat_values.specs.Outcomes.{fitted_by, value_causes, value_outcomes};

use crate::Values;
use columns_core::Error;
use parquet_page::DictPage;
use std::alloc::Global;

/// The encodings that are read.
#[derive(Clone, Copy, PartialEq, Eq)]
pub enum ValueEncoding {
    Plain,
    Keys,
    DeltaPacked,
    DeltaLengths,
}

/// Reads the stored values of a page, and appends what they become to decoded values.
pub trait ValueDecoder: Values {
    ghost use Rattle.flat_values.specs.Conversion.{Conversion};
    ghost use Rattle.flat_values.specs.Encodings.{as_encoding};
    ghost use Rattle.parquet_meta.specs.declared.metadata.PhysicalType.{PhysicalType};

    /// The type of the columns that are read.
    ghost physical: { Self → PhysicalType };

    /// What becomes of a stored value.
    ghost rule: { Self → Conversion };

    /// The cells of the entries.
    ghost dict_shown: { Self → Self.Dict → List Cell };

    /// Before the first of `count` values, all of which are judged.
    fn open(
        &self,
        encoding: ValueEncoding,
        bytes: &[u8],
        count: usize,
        dict: Option<&Self::Dict>,
    ) -> Result<Self::Place, Error>
        requires carried { goes_with (as_encoding encoding) (physical self.now) ≡ true }
        requires own { IfSome (option_copied dict) (Self.is_own_dict self.now) }
        ensures values { let entries = option_map (dict_shown self.now) (option_copied dict.entry) in
            let outcomes = value_outcomes (rule self.now) (physical self.now) entries
            (as_encoding encoding) bytes.now count in
            IfOk result (λ place. outcomes
            ≡ Some (Self.left self.now (option_copied dict.entry) bytes.now place)) }
        ensures over { IfOk result (Self.is_over self.now bytes.now) }
        ensures ok { let entries = option_map
            (λ dict. length (dict_shown self.now dict)) (option_copied dict.entry) in
            OnOk result (value_causes (physical self.now) entries (as_encoding encoding) bytes.now count
            ≡ []) }
        ensures cause { let entries = option_map
            (λ dict. length (dict_shown self.now dict)) (option_copied dict.entry) in
            let causes = value_causes (physical self.now) entries (as_encoding encoding) bytes.now count in
            TellsOf result causes };

    /// The entries of a dictionary page, all converted.
    fn read_dict(&self, alloc: Global, page: &DictPage<'_>) -> Result<Self::Dict, Error>
        ensures entries { let cells = fitted_by (Self.most_bytes self.now) (rule self.now) (physical self.now)
            (dict_content page.now) in
            IfOk result (λ dict. cells ≡ Ok (dict_shown self.now dict)) }
        ensures own { IfOk result (Self.is_own_dict self.now) }
        ensures cause { let cells = fitted_by (Self.most_bytes self.now) (rule self.now) (physical self.now)
            (dict_content page.now) in
            ComesOf result (causes_in (refusal_of cells)) };
}
