//! What the tools share: where their text goes, how they end, and numbers, types, values and cells as text.
#![tactic(auto)]

mod block;
mod cells;
mod column;
mod digits;
mod edge;
mod growing_sink;
mod in_place;
mod numbers;
mod rows;
mod sink;
mod status;
mod text;
mod text_column;
mod type_names;
mod types;
mod values;

pub use block::Block;
pub use cells::push_cell;
pub use column::push_number_lines;
pub use edge::{Edge, end};
pub use numbers::{count, signed_number};
pub use parquet_meta::Failed as OutFailed;
pub use rows::push_row_lines;
pub use sink::{
    FailingSink, FailingSink as FailingOut, MemorySink, MemorySink as MemoryOut, Sink, Sink as Out,
    StdSink, StdSink as StdOut, write_all,
};
pub use status::{Status, Status as ToolStatus, status_of, status_text, tool_text};
pub use text::{Text, cell_text};
pub use text_column::push_text_lines;
pub use type_names::type_text;
pub use types::data_type;
pub use values::value;
