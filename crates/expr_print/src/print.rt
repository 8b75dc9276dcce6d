//! The text of an expression.
ghost use Rattle.std.specs.Prelude.{◌≡◌, ◌++◌, ◌∷◌, [], true, codes, option_map, OnOk, IfOk};
ghost use Rattle.expr_print.specs.Tokens.{call, case_end, in_parens, negated_if, printed, tokens, unary};
ghost use Rattle.expr_print.specs.Calls.{
  arms_left,
  caveat,
  end_of_in,
  end_of_like,
  in_list,
  left_of,
  joined,
};

use crate::token::{operator, push_quoted, push_token, push_value, type_word};
use expr_lang::{Arm, Expr, UnaryOp};
use sqlite_items::Boxed;
use std::alloc::Global;
use value_types::{ColumnType, Name, NoMemory, Words};

#[tactic(auto, using(crate::proofs::TokenTexts::texts))]
fn push_column(
    alloc: Global,
    out: &mut Words,
    qualifier: &Option<Name>,
    name: &Name,
) -> Result<(), NoMemory>
    ensures { OnOk result (out.new ≡ joined out.old (tokens (Expr.Column qualifier.now name.now))) }
{
    if let Some(table) = qualifier {
        push_token(alloc, out, table.as_text())?;
        push_token(alloc, out, ".")?;
    }
    push_token(alloc, out, name.as_text())
}

/// Appends NOT where it is asked for.
fn push_not(alloc: Global, out: &mut Words, negated: bool) -> Result<(), NoMemory>
    ensures { OnOk result (out.new ≡ joined out.old (negated_if negated [])) }
{
    if negated {
        return push_token(alloc, out, "NOT");
    }
    Ok(())
}

/// Appends expressions with commas between.
#[cycle(print)]
#[tactic(auto, using(crate::proofs::TokenTexts::texts))]
fn push_entries(alloc: Global, out: &mut Words, list: &[Expr]) -> Result<(), NoMemory>
    ensures { OnOk result (out.new ≡ out.old ++ left_of true list.now) }
{
    let mut first = true;
    for item in list {
        if !first {
            push_token(alloc, out, ",")?;
        }
        push_expr(alloc, out, item)?;
        first = false;
    }
    Ok(())
}

/// Appends a list in parentheses.
#[cycle(print)]
#[tactic(auto, using(crate::proofs::TokenTexts::texts))]
fn push_list(alloc: Global, out: &mut Words, list: &[Expr]) -> Result<(), NoMemory>
    ensures { OnOk result (out.new ≡ joined out.old (in_list list.now)) }
{
    push_token(alloc, out, "(")?;
    push_entries(alloc, out, list)?;
    push_token(alloc, out, ")")
}

#[cycle(print)]
#[tactic(auto, using(crate::proofs::TokenTexts::texts))]
fn push_arms(alloc: Global, out: &mut Words, arms: &[Arm]) -> Result<(), NoMemory>
    ensures { OnOk result (out.new ≡ out.old ++ arms_left arms.now) }
{
    for arm in arms {
        push_token(alloc, out, "WHEN")?;
        push_expr(alloc, out, &arm.condition)?;
        push_token(alloc, out, "THEN")?;
        push_expr(alloc, out, &arm.answer)?;
    }
    Ok(())
}

#[cycle(print)]
#[tactic(auto, using(crate::proofs::TokenTexts::texts))]
fn push_end(alloc: Global, out: &mut Words, otherwise: &Option<Boxed<Expr>>) -> Result<(), NoMemory>
    ensures { OnOk result (out.new ≡ joined out.old (case_end (option_map tokens otherwise.now))) }
{
    if let Some(expr) = otherwise {
        push_token(alloc, out, "ELSE")?;
        push_expr(alloc, out, expr.get())?;
    }
    push_token(alloc, out, "END")
}

/// Appends an opening parenthesis and what stands first in it.
#[cycle(print)]
#[tactic(auto, using(crate::proofs::TokenTexts::texts))]
fn push_opened(alloc: Global, out: &mut Words, of: &Expr) -> Result<(), NoMemory>
    ensures { OnOk result (out.new ≡ joined out.old (codes "(" ∷ tokens of.now)) }
{
    push_token(alloc, out, "(")?;
    push_expr(alloc, out, of)
}

/// Appends what stands last in parentheses, and their end.
#[cycle(print)]
#[tactic(auto, using(crate::proofs::TokenTexts::texts))]
fn push_closed(alloc: Global, out: &mut Words, of: &Expr) -> Result<(), NoMemory>
    ensures { OnOk result (out.new ≡ joined out.old (tokens of.now ++ codes ")" ∷ [])) }
{
    push_expr(alloc, out, of)?;
    push_token(alloc, out, ")")
}

/// Appends an operator and its operand, in parentheses.
#[cycle(print)]
#[tactic(auto, using(crate::proofs::TokenTexts::texts))]
fn push_signed(alloc: Global, out: &mut Words, op: &str, of: &Expr) -> Result<(), NoMemory>
    ensures { OnOk result (out.new ≡ joined out.old (in_parens (op.now ∷ tokens of.now))) }
{
    push_token(alloc, out, "(")?;
    push_token(alloc, out, op)?;
    push_closed(alloc, out, of)
}

/// Appends a call of one operand.
#[cycle(print)]
#[tactic(auto, using(crate::proofs::TokenTexts::texts))]
fn push_call(alloc: Global, out: &mut Words, word: &str, of: &Expr) -> Result<(), NoMemory>
    ensures { OnOk result (out.new ≡ joined out.old (call word.now (tokens of.now))) }
{
    push_token(alloc, out, word)?;
    push_opened(alloc, out, of)?;
    push_token(alloc, out, ")")
}

#[cycle(print)]
#[tactic(auto, using(crate::proofs::TokenTexts::texts))]
fn push_unary(alloc: Global, out: &mut Words, op: UnaryOp, of: &Expr) -> Result<(), NoMemory>
    ensures { OnOk result (out.new ≡ joined out.old (unary op (tokens of.now))) }
{
    match op {
        UnaryOp::Not => push_signed(alloc, out, "NOT", of),
        UnaryOp::Minus => push_signed(alloc, out, "-", of),
        UnaryOp::Length => push_call(alloc, out, "LENGTH", of),
        UnaryOp::Trim => push_call(alloc, out, "TRIM", of),
        UnaryOp::Abs => push_call(alloc, out, "ABS", of),
    }
}

#[cycle(print)]
#[tactic(auto, using(crate::proofs::TokenTexts::texts))]
fn push_is_null(alloc: Global, out: &mut Words, of: &Expr, negated: bool) -> Result<(), NoMemory>
    ensures { OnOk result (out.new ≡ joined out.old (tokens (Expr.IsNull of.now negated))) }
{
    push_opened(alloc, out, of)?;
    push_token(alloc, out, "IS")?;
    push_not(alloc, out, negated)?;
    push_token(alloc, out, "NULL")?;
    push_token(alloc, out, ")")
}

/// Appends the pattern of a LIKE, and the end of its parentheses.
#[cycle(print)]
#[tactic(auto, using(crate::proofs::TokenTexts::texts))]
fn push_pattern(
    alloc: Global,
    out: &mut Words,
    pattern: &Expr,
    negated: bool,
) -> Result<(), NoMemory>
    ensures { OnOk result (out.new ≡ joined out.old (end_of_like negated (tokens pattern.now))) }
{
    push_not(alloc, out, negated)?;
    push_token(alloc, out, "LIKE")?;
    push_closed(alloc, out, pattern)
}

/// Appends the list of an IN, and the end of its parentheses.
#[cycle(print)]
#[tactic(auto, using(crate::proofs::TokenTexts::texts))]
fn push_members(
    alloc: Global,
    out: &mut Words,
    list: &[Expr],
    negated: bool,
) -> Result<(), NoMemory>
    ensures { OnOk result (out.new ≡ joined out.old (end_of_in negated list.now)) }
{
    push_not(alloc, out, negated)?;
    push_token(alloc, out, "IN")?;
    push_list(alloc, out, list)?;
    push_token(alloc, out, ")")
}

#[cycle(print)]
#[tactic(auto, using(crate::proofs::TokenTexts::texts))]
fn push_coalesce(alloc: Global, out: &mut Words, list: &[Expr]) -> Result<(), NoMemory>
    ensures { OnOk result (out.new ≡ joined out.old (tokens (Expr.Coalesce list.now))) }
{
    push_token(alloc, out, "COALESCE")?;
    push_list(alloc, out, list)
}

#[cycle(print)]
#[tactic(auto, using(crate::proofs::TokenTexts::texts))]
fn push_cast(alloc: Global, out: &mut Words, of: &Expr, kind: ColumnType) -> Result<(), NoMemory>
    ensures { OnOk result (out.new ≡ joined out.old (tokens (Expr.Cast of.now kind))) }
{
    push_token(alloc, out, "CAST")?;
    push_opened(alloc, out, of)?;
    push_token(alloc, out, "AS")?;
    push_token(alloc, out, type_word(kind))?;
    push_token(alloc, out, ")")
}

/// Appends a CAVEAT. Its number isn't written: it is the CAVEAT's place among those of the text.
#[cycle(print)]
#[tactic(auto, using(crate::proofs::TokenTexts::texts))]
fn push_caveat(alloc: Global, out: &mut Words, of: &Expr, message: &str) -> Result<(), NoMemory>
    ensures { OnOk result (out.new ≡ joined out.old (caveat (tokens of.now) message.now)) }
{
    push_token(alloc, out, "CAVEAT")?;
    push_opened(alloc, out, of)?;
    push_token(alloc, out, ",")?;
    push_quoted(alloc, out, message)?;
    push_token(alloc, out, ")")
}

#[tactic(auto, using(crate::proofs::TokenTexts::texts))]
fn push_count_all(alloc: Global, out: &mut Words) -> Result<(), NoMemory>
    ensures { OnOk result (out.new ≡ joined out.old (tokens Expr.CountAll)) }
{
    push_token(alloc, out, "COUNT")?;
    push_token(alloc, out, "(")?;
    push_token(alloc, out, "*")?;
    push_token(alloc, out, ")")
}

#[cycle(print)]
#[tactic(auto, using(crate::proofs::TokenTexts::texts))]
fn push_expr(alloc: Global, out: &mut Words, expr: &Expr) -> Result<(), NoMemory>
    ensures { OnOk result (out.new ≡ joined out.old (tokens expr.now)) }
{
    match expr {
        Expr::Literal(value) => push_value(alloc, out, value),
        Expr::Column { qualifier, name } => push_column(alloc, out, qualifier, name),
        Expr::Unary(op, of) => push_unary(alloc, out, *op, of.get()),
        Expr::Binary(op, left, right) => {
            push_opened(alloc, out, left.get())?;
            push_token(alloc, out, operator(*op))?;
            push_closed(alloc, out, right.get())
        }
        Expr::IsNull { of, negated } => push_is_null(alloc, out, of.get(), *negated),
        Expr::Like {
            of,
            pattern,
            negated,
        } => {
            push_opened(alloc, out, of.get())?;
            push_pattern(alloc, out, pattern.get(), *negated)
        }
        Expr::OneOf { of, list, negated } => {
            push_opened(alloc, out, of.get())?;
            push_members(alloc, out, list.as_slice(), *negated)
        }
        Expr::Case { arms, otherwise } => {
            push_token(alloc, out, "CASE")?;
            push_arms(alloc, out, arms.as_slice())?;
            push_end(alloc, out, otherwise)
        }
        Expr::Coalesce(list) => push_coalesce(alloc, out, list.as_slice()),
        Expr::Cast { of, kind } => push_cast(alloc, out, of.get(), *kind),
        Expr::Caveat { of, message, .. } => push_caveat(alloc, out, of.get(), message.as_text()),
        Expr::CountAll => push_count_all(alloc, out),
        Expr::Count(of) => push_call(alloc, out, "COUNT", of.get()),
        Expr::Sum(of) => push_call(alloc, out, "SUM", of.get()),
        Expr::Min(of) => push_call(alloc, out, "MIN", of.get()),
        Expr::Max(of) => push_call(alloc, out, "MAX", of.get()),
    }
}

/// The text of an expression.
///
/// What an operator makes stands in parentheses, and each token has a space after it.
pub fn print_expr(alloc: Global, expr: &Expr) -> Result<Words, NoMemory>
    ensures { IfOk result (λ text. text ≡ printed expr.now) }
{
    let mut text = Words::new(alloc)?;
    push_expr(alloc, &mut text, expr)?;
    Ok(text)
}
