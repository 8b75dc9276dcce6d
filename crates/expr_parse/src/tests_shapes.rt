//! How operators bind: each text beside its tree, written with all its parentheses.
use crate::parse_expr;
use expr_lang::{BinaryOp, Expr, UnaryOp};
use std::alloc::{AllocError, Global};
use std::process::Abort;
use std::test::Fail;
use value_types::Value;

fn sign(op: BinaryOp) -> &'static str {
    match op {
        BinaryOp::Or => " or ",
        BinaryOp::And => " and ",
        BinaryOp::Equal => " = ",
        BinaryOp::NotEqual => " <> ",
        BinaryOp::Less => " < ",
        BinaryOp::AtMost => " <= ",
        BinaryOp::Greater => " > ",
        BinaryOp::AtLeast => " >= ",
        BinaryOp::Concat => " || ",
        BinaryOp::Add => " + ",
        BinaryOp::Subtract => " - ",
        BinaryOp::Multiply => " * ",
        BinaryOp::Divide => " / ",
        BinaryOp::Remainder => " % ",
    }
}

#[cycle(shape)]
fn push_shape(out: &mut String, expr: &Expr) -> Result<(), AllocError> {
    match expr {
        Expr::Literal(Value::Int(_)) => out.push('1'),
        Expr::Column { name, .. } => out.push_str(name.as_text()),
        Expr::Unary(UnaryOp::Not, of) => push_form(out, "not ", of.get(), ""),
        Expr::Unary(UnaryOp::Minus, of) => push_form(out, "- ", of.get(), ""),
        Expr::IsNull { of, negated: true } => push_form(out, "", of.get(), " is not null"),
        Expr::IsNull { of, .. } => push_form(out, "", of.get(), " is null"),
        Expr::OneOf {
            of,
            negated: true,
            ..
        } => push_form(out, "", of.get(), " not in .."),
        Expr::OneOf { of, .. } => push_form(out, "", of.get(), " in .."),
        Expr::Like {
            of,
            negated: true,
            ..
        } => push_form(out, "", of.get(), " not like .."),
        Expr::Like { of, .. } => push_form(out, "", of.get(), " like .."),
        Expr::Binary(op, a, b) => {
            out.push('(')?;
            push_shape(out, a.get())?;
            out.push_str(sign(*op))?;
            push_shape(out, b.get())?;
            out.push(')')
        }
        _ => out.push('?'),
    }
}

#[cycle(shape)]
fn push_form(out: &mut String, before: &str, of: &Expr, after: &str) -> Result<(), AllocError> {
    out.push('(')?;
    out.push_str(before)?;
    push_shape(out, of)?;
    out.push_str(after)?;
    out.push(')')
}

fn shape_of(rt: &impl Abort, alloc: Global, text: &str) -> Result<String, Fail> {
    assert!(rt; text.len() < 65_536);
    let mut shape = String::new(alloc);
    match parse_expr(alloc, text) {
        Ok(tree) => push_shape(&mut shape, &tree)?,
        Err(_) => panic!(rt; "no tree"),
    }
    Ok(shape)
}

#[test]
fn each_operator_binds_by_its_level(rt: HostRuntime) -> Result<(), Fail> {
    let cases: [(&str, &str); 21] = [
        (
            "a OR b AND c = 1 + 1 * -x",
            "(a or (b and (c = (1 + (1 * (- x))))))",
        ),
        ("NOT a = b", "(not (a = b))"),
        ("NOT NOT a AND b", "((not (not a)) and b)"),
        ("NOT a IS NULL", "(not (a is null))"),
        ("a OR b AND c", "(a or (b and c))"),
        ("a AND b OR c", "((a and b) or c)"),
        ("a AND b AND c", "((a and b) and c)"),
        ("a = b AND c < 1", "((a = b) and (c < 1))"),
        ("a <> b || c", "(a <> (b || c))"),
        ("a || b + c", "(a || (b + c))"),
        ("a || b || c", "((a || b) || c)"),
        ("a - b - c", "((a - b) - c)"),
        ("a - (b - c)", "(a - (b - c))"),
        ("a + b * c", "(a + (b * c))"),
        ("a / b % c", "((a / b) % c)"),
        ("- a * b", "((- a) * b)"),
        ("- - a", "(- (- a))"),
        ("a * - b", "(a * (- b))"),
        ("a + 1 IS NOT NULL OR b", "(((a + 1) is not null) or b)"),
        ("a + b NOT IN (1, 1) AND c", "(((a + b) not in ..) and c)"),
        ("NOT a || b LIKE c", "(not ((a || b) like ..))"),
    ];
    for (text, shape) in cases.iter() {
        let found = shape_of(&rt, rt.alloc(), text)?;
        assert_eq!(rt; found.as_str(), *shape);
    }
    Ok(())
}
