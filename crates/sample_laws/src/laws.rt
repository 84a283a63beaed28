//! What is promised of every sample.
ghost use Rattle.parquet_sample.specs.Sample.{most_rows, sample};
ghost use Rattle.parquet_scan.specs.Rows.{file_of};
ghost use Rattle.parquet_scan.specs.Scan.{request_of};
ghost use Rattle.sample_laws.specs.Laws.{AsksOfSample, HasCells, IsGoodFor, IsTrueOfField};
ghost use Rattle.sample_laws.specs.Commands.{IsAlwaysGoodFor};
ghost use Rattle.scan_program.specs.Program.{command_in};
ghost use Rattle.scan_program.specs.Sampled.{sample_in};
ghost use Rattle.std.specs.Prelude.{◌≡◌, ◌≤◌, IfSome, IsSomeAnd};

use columns_core::{Field, Schema};
use parquet_scan::Bound;

/// The bytes of a sample are a valid file for every legal request over its three columns, read as `Int64`, `Int32` and
/// `Utf8`, and the counts, locations and statistics in them are true.
pub fn sample_holds(
    _bytes: &[u8],
    _rows: u32,
    _seed: u32,
    _schema: &Schema,
    _bounds: &[Bound],
    _chunk_size: Option<usize>,
    _limit: Option<usize>,
)
    requires few { _rows ≤ most_rows }
    requires bytes { _bytes.now ≡ sample _rows _seed }
    requires asks { AsksOfSample (request_of _schema.now _bounds.now _chunk_size _limit) }
    ensures { IsGoodFor (request_of _schema.now _bounds.now _chunk_size _limit) _bytes.now }
{}

/// In each group of a sample the counts, locations, statistics and column indexes of the three columns, read as these types,
/// are true, whatever is asked of it.
pub fn sample_is_true(_bytes: &[u8], _rows: u32, _seed: u32, _field: &Field)
    requires few { _rows ≤ most_rows }
    requires bytes { _bytes.now ≡ sample _rows _seed }
    ensures { IsSomeAnd (file_of _bytes.now) (IsTrueOfField _field.now) }
{}

/// The rows of a sample, group after group, have the cells of `sample_cell` in each of the three columns, read as these types.
pub fn sample_has_its_cells(_bytes: &[u8], _rows: u32, _seed: u32, _field: &Field)
    requires few { _rows ≤ most_rows }
    requires bytes { _bytes.now ≡ sample _rows _seed }
    ensures { IsSomeAnd (file_of _bytes.now) (HasCells _rows _seed _field.now) }
{}

/// Words that name a sample of at most 2,000,000 rows, and ask for its three columns what is legal, ask it of a valid file, whatever the
/// source tells. So `run` answers them with the report, unless memory runs out or the sink fails.
pub fn sample_commands_are_valid(_words: &[String])
    ensures { IfSome (command_in _words.now) (λ command. IfSome (sample_in _words.now) (λ asked.
        AsksOfSample command.request → asked.0 ≤ most_rows →
        IsAlwaysGoodFor command.request _words.now)) }
{}
