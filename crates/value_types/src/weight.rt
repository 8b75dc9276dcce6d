//! The length of an id's text, and the number of the id's parts.
ghost use Rattle.std.specs.Prelude.{◌≡◌, ◌-◌, ◌^◌, ◌≤◌, length, min, decimal};
ghost use Rattle.value_types.specs.Text as spec;

use crate::row_id::RowId;
use crate::value::Value;
use itoa::Buffer;

fn char_weight(c: char) -> u64
    ensures value { result ≡ length (spec.escaped c) }
    ensures bound { result ≤ 6 }
{
    match c {
        '"' | '\\' | '\n' | '\r' | '\t' => 2,
        _ => {
            if u32::from(c) < 32 {
                6
            } else {
                c.len_utf8() as u64
            }
        }
    }
}

#[tactic(auto, using(crate::proofs::Weights::chars_weigh))]
fn quoted_weight(text: &str) -> u64
    ensures { result ≡ min (length (spec.quoted text.now)) (2 ^ 64 - 1) }
{
    let mut total: u64 = 2;
    for c in text.chars() {
        total = total.saturating_add(char_weight(c));
    }
    total
}

fn decimal_weight(n: u64) -> u64
    ensures value { result ≡ length (decimal n) }
    ensures bound { result ≤ 40 }
{
    let mut buffer = Buffer::new();
    buffer.format(n).len() as u64
}

fn int_weight(n: i64) -> u64
    ensures value { result ≡ length (spec.literal (Value.Int n)) }
    ensures bound { result ≤ 40 }
{
    let mut buffer = Buffer::new();
    buffer.format(n).len() as u64
}

#[tactic(auto, using(crate::proofs::Weights::lengths))]
fn fixed_weight(n: i64) -> u64
    ensures value { result ≡ length (spec.fixed_text n) }
    ensures bound { result ≤ 46 }
{
    let sign = if n < 0 { 1 } else { 0 };
    sign + decimal_weight(n.unsigned_abs() / 10_000) + 5
}

fn literal_weight(value: &Value) -> u64
    ensures { result ≡ min (length (spec.literal value.now)) (2 ^ 64 - 1) }
{
    match value {
        Value::Null | Value::Bool(true) => 4,
        Value::Bool(false) => 5,
        Value::Int(n) => int_weight(*n),
        Value::Fixed(n) => fixed_weight(*n),
        Value::Text(text) => quoted_weight(text.as_text()),
    }
}

#[tactic(auto, using(crate::proofs::Weights::lengths))]
fn literals_weight(values: &[Value]) -> u64
    ensures { result ≡ min (length (spec.with_commas values.now)) (2 ^ 64 - 1) }
{
    let mut total: u64 = 0;
    let mut first = true;
    for value in values {
        if !first {
            total = total.saturating_add(1);
        }
        total = total.saturating_add(literal_weight(value));
        first = false;
    }
    total
}

/// The length of the id's text, or the last value of u64 where it is greater.
#[tactic(auto, using(crate::proofs::Weights::weights))]
pub fn id_weight(id: &RowId) -> u64
    ensures { result ≡ min (length (spec.id id.now)) (2 ^ 64 - 1) }
{
    match id {
        RowId::Rec(n) | RowId::Emit(n) => 1 + decimal_weight(u64::from(*n)),
        RowId::Named(name) => 1 + name.len() as u64,
        RowId::Pair(left, right) => {
            let both = id_weight(left.get()).saturating_add(id_weight(right.get()));
            both.saturating_add(3)
        }
        RowId::Alone(of) => id_weight(of.get()).saturating_add(4),
        RowId::First(of) | RowId::Second(of) => id_weight(of.get()).saturating_add(1),
        RowId::Key(values) => literals_weight(values.as_slice()).saturating_add(2),
    }
}

/// The number of the id's parts, or the last value of u64 where it is greater.
#[tactic(auto, using(crate::proofs::Weights::counts))]
pub fn id_parts(id: &RowId) -> u64
    ensures { result ≡ min (spec.parts id.now) (2 ^ 64 - 1) }
{
    match id {
        RowId::Rec(_) | RowId::Named(_) | RowId::Emit(_) | RowId::Key(_) => 1,
        RowId::Pair(left, right) => id_parts(left.get()).saturating_add(id_parts(right.get())),
        RowId::Alone(of) | RowId::First(of) | RowId::Second(of) => {
            id_parts(of.get()).saturating_add(1)
        }
    }
}
