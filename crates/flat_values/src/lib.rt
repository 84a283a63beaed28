//! Stored values as items of the type that is asked for.
#![tactic(auto)]

pub mod boolean;
mod bulk;
mod column_arrays;
mod convert;
mod decoded_numbers;
mod fixed;
mod fixed_bytes;
mod fixed_numbers;
pub mod fixed_size_binary;
mod flat_decoder;
mod flat_iter;
mod integer;
mod into_array;
mod keys;
pub mod laws;
mod narrow;
pub mod null;
mod number_states;
mod number_values;
mod numbers;
mod pairs;
pub mod primitive;
mod scale;
mod spread;
mod stored;
mod string_states;
mod time;
mod truths;
mod validity;
mod value_decoder;
mod values;

pub use column_arrays::ColumnArrays;
pub use convert::{Convert, ConvertAll};
pub use decoded_numbers::DecodedNumbers;
pub use fixed::{DecodedFixed, FixedPlace, FixedValues};
pub use fixed_bytes::{
    ConvertFixed, DaysAndMillis, Decimals, Months, convert_days_ms, convert_i128,
    convert_year_month,
};
pub use fixed_numbers::FixedNumbers;
pub use fixed_size_binary::FixedSizeBinary;
pub use flat_decoder::{FlatDecoder, FlatState, extend_rows};
pub use flat_iter::FlatIter;
pub use integer::{DaysToMillis, Keep, Widen};
pub use into_array::{IntoArray, IntoColumn};
pub use keys::{KeyPlace, some_key_is_past};
pub use narrow::Narrow;
pub use null::NullIter;
pub use number_values::NumberValues;
pub use numbers::{NumberPlace, PlainPlace};
pub use pairs::{carries, carries_leaf, carries_page};
pub use scale::Scale;
pub use stored::ParquetNativeType;
pub use time::{Int96Bits, Int96Time, int96_to_i64_ns, unifiy_timestmap_unit};
pub use truths::{DecodedTruths, TruthValues};
pub use validity::{freeze_mask, mark_nulls, mark_rows, mark_values};
pub use value_decoder::{ValueDecoder, ValueEncoding};
pub use values::Values;
