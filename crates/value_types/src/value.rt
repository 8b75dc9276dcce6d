//! Values and their types.
ghost use Rattle.std.specs.Prelude.{◌≡◌, IfOk};

use crate::list::{Copied, ListOf};
use crate::memory::NoMemory;
use crate::words::Words;
use std::alloc::Global;

/// The type of a column.
#[derive(Clone, Copy, Debug)]
pub enum ColumnType {
    Bool,
    Int,
    Fixed,
    Text,
}

impl PartialEq for ColumnType {
    ghost use Rattle.std.specs.Cmp.{partial_equiv_from_equiv};
    ghost use Rattle.value_types.specs.Order.{same_type};
    ghost use Rattle.value_types.specs.Same.{type_equiv};

    ghost eq = { same_type };

    ghost laws = { partial_equiv_from_equiv type_equiv };

    fn eq(&self, other: &ColumnType) -> bool {
        matches!(
            (self, other),
            (ColumnType::Bool, ColumnType::Bool)
                | (ColumnType::Int, ColumnType::Int)
                | (ColumnType::Fixed, ColumnType::Fixed)
                | (ColumnType::Text, ColumnType::Text)
        )
    }
}

impl Eq for ColumnType {
    ghost use Rattle.value_types.specs.Same.{type_equiv};

    ghost laws = { type_equiv };
}

impl Copied for Option<ColumnType> {
    fn copied(&self, _alloc: Global) -> Result<Option<ColumnType>, NoMemory> {
        Ok(*self)
    }
}

/// A value of a dataset.
#[derive(Debug, Drop)]
pub enum Value {
    Null,
    Bool(bool),
    Int(i64),
    /// Ten-thousandths.
    Fixed(i64),
    Text(Words),
}

impl Value {
    /// An equal value.
    pub fn copy(&self, alloc: Global) -> Result<Value, NoMemory>
        ensures { IfOk result (λ v. v ≡ self.now) }
    {
        match self {
            Value::Null => Ok(Value::Null),
            Value::Bool(b) => Ok(Value::Bool(*b)),
            Value::Int(n) => Ok(Value::Int(*n)),
            Value::Fixed(n) => Ok(Value::Fixed(*n)),
            Value::Text(text) => Ok(Value::Text(text.copy(alloc)?)),
        }
    }
}

/// A list of values.
pub type Values = ListOf<Value>;

impl Copied for Value {
    fn copied(&self, alloc: Global) -> Result<Value, NoMemory> {
        self.copy(alloc)
    }
}

impl PartialEq for Value {
    ghost use Rattle.std.specs.Cmp.{partial_equiv_from_equiv};
    ghost use Rattle.value_types.specs.Order.{same_value};
    ghost use Rattle.value_types.specs.Same.{same_equiv};

    ghost eq = { same_value };

    ghost laws = { partial_equiv_from_equiv same_equiv };

    fn eq(&self, other: &Value) -> bool {
        match (self, other) {
            (Value::Null, Value::Null) => true,
            (Value::Bool(a), Value::Bool(b)) => *a == *b,
            (Value::Int(a), Value::Int(b)) => *a == *b,
            (Value::Fixed(a), Value::Fixed(b)) => *a == *b,
            (Value::Text(a), Value::Text(b)) => *a == *b,
            _ => false,
        }
    }
}

impl Eq for Value {
    ghost use Rattle.value_types.specs.Same.{same_equiv};

    ghost laws = { same_equiv };
}
