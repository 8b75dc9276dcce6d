//! Tokens, each with the space after it.
ghost use Rattle.std.specs.Prelude.{◌≡◌, [], ◌∷◌, ◌++◌, OnOk};
ghost use Rattle.std.specs.List.{flat_map};
ghost use Rattle.std.specs.Str.{chars};
ghost use Rattle.expr_parse.specs.Values as values;
ghost use Rattle.expr_print.specs.Tokens as spec;
ghost use Rattle.expr_print.specs.Calls.{twice_character};

use expr_lang::BinaryOp;
use std::alloc::Global;
use value_types::{ColumnType, NoMemory, Value, Words, push_literal};

/// Appends a token.
pub fn push_token(alloc: Global, out: &mut Words, token: &str) -> Result<(), NoMemory>
    ensures { OnOk result (out.new ≡ out.old ++ spec.spaced (token.now ∷ [])) }
{
    out.push_text(alloc, token)?;
    out.push_text(alloc, " ")
}

/// The token of an operator between two operands.
pub fn operator(op: BinaryOp) -> &'static str
    ensures { result.now ≡ spec.operator op }
{
    match op {
        BinaryOp::Or => "OR",
        BinaryOp::And => "AND",
        BinaryOp::Equal => "=",
        BinaryOp::NotEqual => "<>",
        BinaryOp::Less => "<",
        BinaryOp::AtMost => "<=",
        BinaryOp::Greater => ">",
        BinaryOp::AtLeast => ">=",
        BinaryOp::Concat => "||",
        BinaryOp::Add => "+",
        BinaryOp::Subtract => "-",
        BinaryOp::Multiply => "*",
        BinaryOp::Divide => "/",
        BinaryOp::Remainder => "%",
    }
}

/// The word of a type.
pub fn type_word(kind: ColumnType) -> &'static str
    ensures { result.now ≡ values.type_name kind }
{
    match kind {
        ColumnType::Bool => "bool",
        ColumnType::Int => "int",
        ColumnType::Fixed => "fixed",
        ColumnType::Text => "text",
    }
}

/// Appends a character, and a quote twice.
#[tactic(auto, using(crate::proofs::Characters::characters))]
fn push_twice(alloc: Global, out: &mut Words, c: char) -> Result<(), NoMemory>
    ensures { OnOk result (out.new ≡ out.old ++ twice_character c) }
{
    if c == '\'' {
        out.push_text(alloc, "''")
    } else {
        out.push_char(alloc, c)
    }
}

/// Appends the characters of a text, its quotes twice.
#[tactic(auto, using(crate::proofs::Characters::characters))]
fn push_inner(alloc: Global, out: &mut Words, text: &str) -> Result<(), NoMemory>
    ensures { OnOk result (out.new ≡ out.old ++ flat_map twice_character (chars text.now)) }
{
    for c in text.chars() {
        push_twice(alloc, out, c)?;
    }
    Ok(())
}

/// Appends a text in quotes.
#[tactic(auto, using(crate::proofs::Characters::characters))]
pub fn push_quoted(alloc: Global, out: &mut Words, text: &str) -> Result<(), NoMemory>
    ensures { OnOk result (out.new ≡ out.old ++ spec.spaced (spec.quoted text.now ∷ [])) }
{
    out.push_text(alloc, "'")?;
    push_inner(alloc, out, text)?;
    push_token(alloc, out, "'")
}

/// Appends the token of a value.
#[tactic(auto, using(crate::proofs::Characters::characters))]
pub fn push_value(alloc: Global, out: &mut Words, value: &Value) -> Result<(), NoMemory>
    ensures { OnOk result (out.new ≡ out.old ++ spec.spaced (spec.literal value.now ∷ [])) }
{
    match value {
        Value::Null => push_token(alloc, out, "NULL"),
        Value::Bool(true) => push_token(alloc, out, "TRUE"),
        Value::Bool(false) => push_token(alloc, out, "FALSE"),
        Value::Text(text) => push_quoted(alloc, out, text.as_text()),
        Value::Int(_) | Value::Fixed(_) => {
            push_literal(alloc, out, value)?;
            out.push_text(alloc, " ")
        }
    }
}
