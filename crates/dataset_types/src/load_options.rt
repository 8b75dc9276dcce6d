//! What a load is told of its columns and of fields that can't be read.
use value_types::{ColumnType, ListOf};

/// The types that a load declares, column by column; none stands for a guess.
pub type Types = ListOf<Option<ColumnType>>;

/// What stands in a field that can't be read as its column's type.
#[derive(Clone, Copy, Debug, PartialEq, Eq)]
pub enum Repair {
    /// NULL.
    Null,
    /// 0, 0.0000, false or the empty text, as the type is.
    Zero,
}
