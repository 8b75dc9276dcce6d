//! The order across types, and the laws of order and equality.
ghost use Rattle.std.specs.Prelude.{◌≡◌, ◌↔◌, IsTrue};
ghost use Rattle.std.specs.Cmp.{IsTotalOrder};
ghost use Rattle.value_types.specs.Order.{class, value_cmp, same_value, same_type};
ghost use Rattle.value_types.specs.SameIds.{same_id};

use crate::row_id::RowId;
use crate::value::{ColumnType, Value};
use std::cmp::Ordering;

fn class_of(value: &Value) -> u8
    ensures { result ≡ class value.now }
{
    match value {
        Value::Null => 0,
        Value::Bool(_) => 1,
        Value::Int(_) => 2,
        Value::Fixed(_) => 3,
        Value::Text(_) => 4,
    }
}

/// NULL, then Bool, Int, Fixed and Text, and within one type by value.
pub fn compare(a: &Value, b: &Value) -> Ordering
    ensures { result ≡ value_cmp a.now b.now }
{
    match (a, b) {
        (Value::Bool(a), Value::Bool(b)) => a.cmp(b),
        (Value::Int(a), Value::Int(b)) | (Value::Fixed(a), Value::Fixed(b)) => a.cmp(b),
        (Value::Text(a), Value::Text(b)) => a.as_bytes().cmp(b.as_bytes()),
        _ => class_of(a).cmp(&class_of(b)),
    }
}

/// `compare` is a total order.
pub fn law_of_order()
    ensures { IsTotalOrder value_cmp }
{}

/// Values, column types and row ids are `==` exactly where they are equal.
pub fn law_of_equality()
    ensures values { (a b : Value) → IsTrue (same_value a b) ↔ (a ≡ b) }
    ensures types { (a b : ColumnType) → IsTrue (same_type a b) ↔ (a ≡ b) }
    ensures ids { (a b : RowId) → IsTrue (same_id a b) ↔ (a ≡ b) }
{}
