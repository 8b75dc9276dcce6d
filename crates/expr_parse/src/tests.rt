//! Texts and their trees. Expected trees and places are worked out by hand from the grammar.
use crate::{ParseFault, parse_expr};
use expr_lang::Expr;
use std::alloc::Global;
use std::process::Abort;
use std::test::Fail;
use value_types::{ColumnType, Value};

fn tree_of(rt: &impl Abort, alloc: Global, text: &str) -> Expr {
    assert!(rt; text.len() < 65_536);
    match parse_expr(alloc, text) {
        Ok(tree) => tree,
        Err(_) => panic!(rt; "no tree"),
    }
}

/// The place where the text errs, or none.
fn error_of(rt: &impl Abort, alloc: Global, text: &str) -> Option<u32> {
    assert!(rt; text.len() < 65_536);
    match parse_expr(alloc, text) {
        Ok(_) => None,
        Err(ParseFault::Syntax { at }) => Some(at),
        Err(ParseFault::NoMemory) => panic!(rt; "no memory"),
    }
}

#[test]
fn negated_forms_are_negated(rt: HostRuntime) {
    match tree_of(&rt, rt.alloc(), "a NOT IN (1, 2)") {
        Expr::OneOf {
            of,
            list,
            negated,
            ..
        } => {
            assert!(rt; negated);
            assert!(rt; matches!(of.get(), Expr::Column { .. }));
            assert_eq!(rt; list.len(), 2);
        }
        _ => panic!(rt; "no IN"),
    }
    assert!(rt;
        matches!(
            tree_of(&rt, rt.alloc(), "a in (1)"),
            Expr::OneOf { negated: false, .. }
        )
    );
    assert!(rt;
        matches!(
            tree_of(&rt, rt.alloc(), "a not like 'x%'"),
            Expr::Like { negated: true, .. }
        )
    );
    assert!(rt;
        matches!(
            tree_of(&rt, rt.alloc(), "a is not null"),
            Expr::IsNull { negated: true, .. }
        )
    );
}

#[test]
fn caveats_are_counted_from_one(rt: HostRuntime) {
    match tree_of(&rt, rt.alloc(), "CAVEAT(caveat(a, 'in'), 'it''s')") {
        Expr::Caveat { of, message, call } => {
            assert_eq!(rt; call, 1);
            assert_eq!(rt; message.as_text(), "it's");
            assert!(rt; matches!(of.get(), Expr::Caveat { call: 2, .. }));
        }
        _ => panic!(rt; "no CAVEAT"),
    }
}

#[test]
fn tokens_say_their_values(rt: HostRuntime) {
    match tree_of(&rt, rt.alloc(), "T.Int") {
        Expr::Column { qualifier, name } => {
            assert!(rt; matches!(&qualifier, Some(table) if table.as_text() == "t"));
            assert_eq!(rt; name.as_text(), "int");
        }
        _ => panic!(rt; "no column"),
    }
    match tree_of(&rt, rt.alloc(), "'''né'''''") {
        Expr::Literal(Value::Text(text)) => assert_eq!(rt; text.as_text(), "'né''"),
        _ => panic!(rt; "no text"),
    }
    assert!(rt;
        matches!(
            tree_of(&rt, rt.alloc(), "1.5"),
            Expr::Literal(Value::Fixed(15_000))
        )
    );
    assert!(rt;
        matches!(
            tree_of(&rt, rt.alloc(), "cast(a as FIXED)"),
            Expr::Cast {
                kind: ColumnType::Fixed,
                ..
            }
        )
    );
}

#[test]
fn a_text_errs_at_its_place(rt: HostRuntime) {
    let cases: [(&str, Option<u32>); 7] = [
        ("", Some(0)),
        ("1 +", Some(3)),
        ("a = b = c", Some(6)),
        ("a in ()", Some(6)),
        ("a # b", Some(2)),
        ("caveat(a, b)", Some(10)),
        ("case when a then b end", None),
    ];
    for (text, place) in cases.iter() {
        assert_eq!(rt; error_of(&rt, rt.alloc(), text), *place);
    }
}

#[test]
fn a_thousand_tokens_and_64_levels_are_the_most(rt: HostRuntime) -> Result<(), Fail> {
    let mut text = String::new(rt.alloc());
    text.push_str("- 1")?;
    for _ in 0..499 {
        text.push_str("+1")?;
    }
    assert_eq!(rt; error_of(&rt, rt.alloc(), text.as_str()), None);
    text.push_str(" + 1")?;
    assert_eq!(rt; error_of(&rt, rt.alloc(), text.as_str()), Some(1002));
    let mut nested = String::new(rt.alloc());
    for _ in 0..64 {
        nested.push('(')?;
    }
    nested.push('1')?;
    for _ in 0..64 {
        nested.push(')')?;
    }
    assert_eq!(rt; error_of(&rt, rt.alloc(), nested.as_str()), None);
    nested.insert(0, '(')?;
    assert_eq!(rt; error_of(&rt, rt.alloc(), nested.as_str()), Some(64));
    Ok(())
}
