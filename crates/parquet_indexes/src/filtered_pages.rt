//! Pages that a closure chooses by what the indexes tell.
ghost use Rattle.std.specs.Prelude.{◌≡◌, ◌≤◌, ◌+◌, ◌⊎◌, [], true, false, length, sum_by, Err, IfOk, IfErr, IfSome, IsErrAnd, OnOk};
ghost use Rattle.std.specs.List.{list_all};
ghost use Rattle.columns_core.specs.Causes.{is_invalid_argument};
ghost use Rattle.parquet_meta.specs.Keeps.{Keeps};
ghost use Rattle.parquet_indexes.specs.Answered as spec;
ghost use Rattle.parquet_indexes.specs.FieldStatistics.{TellsCarried, column_indexes_length, is_carried_field};
ghost use Rattle.parquet_statistics.specs.LeafTypes.{has_column};
ghost use Rattle.parquet_indexes.specs.PageMaps.{in_fields, offset_indexes_length};

use crate::FieldPageStatistics;
use crate::columns_indexes::read_columns_indexes;
use crate::locations::read_locations;
use crate::page_maps::{rows_of_fields, select_of_fields};
use columns_core::{Error, Field, Part};
use parquet_base::{Interval, is_well_shaped};
use parquet_meta::{RowGroupMetaData, Source};
use parquet_page::FilteredPage;
use std::alloc::Global;

/// Of each column of each field its pages, each with the rows of it that a closure chooses, which may be none. The closure is asked once: of each
/// field on its statistics by `read_columns_indexes`, and on the rows of the pages of each of its columns by `compute_page_row_intervals`. It
/// answers intervals of the group's rows. Only the column indexes and the offset indexes of the fields' columns are read.
///
/// `InvalidArgumentError` where a field has no column, or the closure's intervals are not sorted, disjoint, filled and within the group; what
/// `read_columns_indexes` refuses; `ExternalFormat` where an offset index is damaged, its rows or places are, it begins behind the first interval, or
/// there is none where rows are wanted; and any error that the closure answers.
pub fn read_filtered_pages<
    S: Source,
    F: Fn(&[FieldPageStatistics], &[Vec<Vec<Interval>>]) -> Result<Vec<Interval>, Error> + Drop,
>(
    alloc: Global,
    source: &mut S,
    row_group: &RowGroupMetaData,
    fields: &[Field],
    predicate: F,
) -> Result<Vec<Vec<Vec<FilteredPage>>>, Error>
    requires callable { F.IsAlwaysCallable predicate }
    ensures keeps { Keeps S.Source source.old source.new }
    ensures quiet { OnOk result (S.faults source.new ≡ S.faults source.old) }
    ensures argument { list_all (has_column row_group.now.columns) fields.now ≡ false
        → IsErrAnd result (λ e. is_invalid_argument e ≡ true) × (source.new ≡ source.old) }
    ensures each { IfOk result (λ maps. length maps.items ≡ length fields.now) }
    ensures ok { OnOk result (IfSome (S.told source.old) (λ file.
        spec.causes_of_question row_group.now fields.now file ≡ [])) }
    ensures chosen { IfOk result (λ maps.
        spec.AreChosen F.Fn predicate row_group.now fields.now (S.told source.old)
        (in_fields maps.items)) }
    ensures fails { list_all (has_column row_group.now.columns) fields.now ≡ true
        → IfErr result (spec.RefusesToChoose F.Fn predicate row_group.now fields.now
        (S.told source.old) (S.faults source.old) (S.faults source.new)) }
    ensures carried { TellsCarried (list_all (is_carried_field row_group.now.columns) fields.now) result
        ⊎ IsErrAnd result (λ e. spec.IsAnswer F.Fn predicate row_group.now fields.now
        (S.told source.old) (Err e)) }
    ensures taken { S.taken source.new ≤ S.taken source.old
        + (sum_by (column_indexes_length row_group.now.columns) fields.now
        + sum_by (offset_indexes_length row_group.now.columns) fields.now) }
{
    let columns = row_group.columns.as_slice();
    let num_rows = row_group.num_rows;
    let statistics = read_columns_indexes(alloc, source, columns, fields)?;
    let locations = read_locations(alloc, source, columns, fields)?;
    let rows = rows_of_fields(alloc, &locations, num_rows)?;
    let answer = ask(&predicate, &statistics, &rows)?;
    if !is_well_shaped(&answer, num_rows) {
        return Err(Error::InvalidArgumentError(Part::Request));
    }
    select_of_fields(alloc, &answer, &locations, num_rows)
}

/// What the closure answers.
fn ask<F: Fn(&[FieldPageStatistics], &[Vec<Vec<Interval>>]) -> Result<Vec<Interval>, Error>>(
    predicate: &F,
    statistics: &[FieldPageStatistics],
    rows: &[Vec<Vec<Interval>>],
) -> Result<Vec<Interval>, Error>
    requires callable { F.IsAlwaysCallable predicate.now }
    ensures { spec.AnswersAt F.Fn predicate.now statistics.now rows.now result }
{
    predicate(statistics, rows)
}
