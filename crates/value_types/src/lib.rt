//! The values that a dataset holds, the ids of its rows, their texts and their order.
//!
//! Every list, text and shared value of the notebook is one of the small types of this crate, which
//! contracts see without pointers and capacities: a `ListOf<T>` as a list, `Bytes`, `Words` and `Name`
//! as lists of bytes, an `ArcOf<T>` as its value. Start at `Value` and `RowId`.
//! Tables are not here, but in `dataset_types`; arithmetic is not here, but in `expr_meaning`.
#![tactic(auto)]

mod arc;
mod bytes;
mod list;
mod memory;
mod name;
mod number_text;
mod order;
mod quoted;
mod read;
mod row_id;
#[cfg(test)]
mod tests;
mod text;
mod value;
mod weight;
mod words;

pub use arc::ArcOf;
pub use bytes::Bytes;
pub use list::{Copied, ListOf};
pub use memory::NoMemory;
pub use name::{Name, Names, read_name};
pub use order::{compare, law_of_equality, law_of_order};
pub use read::{read_bool, read_fixed, read_int, widen};
pub use row_id::RowId;
pub use text::{id_text, literal_text, plain_text, push_id, push_literal};
pub use value::{ColumnType, Value, Values};
pub use weight::{id_parts, id_weight};
pub use words::Words;
