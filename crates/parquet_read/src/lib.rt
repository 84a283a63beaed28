//! Row groups and files, read column by column.
#![tactic(auto)]

mod asked;
mod column_pages;
mod columns;
mod deserializer;
mod file_reader;
mod group_reader;
mod groups;
mod groups_left;
pub mod laws;
mod locations;
mod many;
mod open_field;
mod parts;
mod row_group;
mod rows;
mod selected;

pub use column_pages::ColumnPages;
pub use columns::read_columns;
pub use deserializer::to_deserializer;
pub use file_reader::FileReader;
pub use group_reader::RowGroupReader;
pub use many::read_columns_many;
pub use row_group::RowGroupDeserializer;
