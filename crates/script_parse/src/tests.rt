//! Texts and their trees. Expected trees and places are worked out by hand from the grammar.
use crate::{
    ParseFault, Script, Stmt, Target, assigned, builders_touched, datasets_touched, parse_script,
};
use expr_lang::Expr;
use std::alloc::Global;
use std::process::Abort;
use std::test::Fail;
use value_types::Names;

fn tree_of(rt: &impl Abort, alloc: Global, text: &str) -> Script {
    assert!(rt; text.len() < 65_536);
    match parse_script(alloc, text) {
        Ok(tree) => tree,
        Err(_) => panic!(rt; "no tree"),
    }
}

/// The place where the text errs, or none.
fn error_of(rt: &impl Abort, alloc: Global, text: &str) -> Option<u32> {
    assert!(rt; text.len() < 65_536);
    match parse_script(alloc, text) {
        Ok(_) => None,
        Err(ParseFault::Syntax { at }) => Some(at),
        Err(ParseFault::NoMemory) => panic!(rt; "no memory"),
    }
}

#[test]
fn a_script_has_its_builders_and_statements(rt: HostRuntime) -> Result<(), Fail> {
    let text = "table t (a int, b TEXT); for i = 1 to 2 { emit t (i, 'x'); } write t as out;";
    let script = tree_of(&rt, rt.alloc(), text);
    assert_eq!(rt; script.builders.len(), 1);
    assert_eq!(rt;
        script.builders.get(0).ok_or("no builder")?.columns.len(),
        2
    );
    assert_eq!(rt; script.body.len(), 2);
    match script.body.get(0).ok_or("no statement")? {
        Stmt::ForRange {
            name,
            low,
            body,
            ..
        } => {
            assert_eq!(rt; name.as_text(), "i");
            assert!(rt; matches!(low, Expr::Literal(_)));
            assert_eq!(rt; body.len(), 1);
        }
        _ => panic!(rt; "no loop"),
    }
    match script.body.get(1).ok_or("no statement")? {
        Stmt::Write { builder, dataset } => {
            assert_eq!(rt; builder.as_text(), "t");
            assert_eq!(rt; dataset.as_text(), "out");
        }
        _ => panic!(rt; "no write"),
    }
    Ok(())
}

#[test]
fn a_loop_goes_over_a_dataset_or_a_computed_one(rt: HostRuntime) -> Result<(), Fail> {
    let script = tree_of(
        &rt,
        rt.alloc(),
        "for r in t {} for r in ('t') { drop u; } if x {} else {}",
    );
    assert!(rt;
        matches!(
            script.body.get(0).ok_or("no statement")?,
            Stmt::ForRows {
                dataset: Target::Literal(_),
                ..
            }
        )
    );
    assert!(rt;
        matches!(
            script.body.get(1).ok_or("no statement")?,
            Stmt::ForRows {
                dataset: Target::Computed(_),
                ..
            }
        )
    );
    assert!(rt;
        matches!(
            script.body.get(2).ok_or("no statement")?,
            Stmt::If {
                otherwise: Some(_),
                ..
            }
        )
    );
    Ok(())
}

#[test]
fn a_text_errs_at_its_place(rt: HostRuntime) {
    let cases: [(&str, Option<u32>); 7] = [
        ("", None),
        ("x = 1", Some(5)),
        ("x = ;", Some(4)),
        ("print 1; table t (a int);", Some(9)),
        ("while x print 1;", Some(8)),
        ("emit t ();", Some(8)),
        ("x = rows 't'; y = exists 'select';", None),
    ];
    for (text, place) in cases.iter() {
        assert_eq!(rt; error_of(&rt, rt.alloc(), text), *place);
    }
}

fn is_at(names: &Names, at: usize, text: &str) -> bool {
    match names.get(at) {
        Some(name) => name.as_text() == text,
        None => false,
    }
}

#[test]
fn names_that_nested_statements_touch_stand_once(rt: HostRuntime) -> Result<(), Fail> {
    let text =
        "table b (n int); y = 1; for r in t { x = rows 't'; if x { emit b (1); y = 2; } else { write b as u; } } drop v; write b as u;";
    let script = tree_of(&rt, rt.alloc(), text);
    let variables = assigned(rt.alloc(), &script.body).ok().ok_or("no names")?;
    assert_eq!(rt; variables.len(), 3);
    assert!(rt; is_at(&variables, 0, "y"));
    assert!(rt; is_at(&variables, 1, "r"));
    assert!(rt; is_at(&variables, 2, "x"));
    let builders = builders_touched(rt.alloc(), &script.body)
        .ok()
        .ok_or("no names")?;
    assert_eq!(rt; builders.len(), 1);
    assert!(rt; is_at(&builders, 0, "b"));
    let datasets = datasets_touched(rt.alloc(), &script.body)
        .ok()
        .ok_or("no names")?;
    assert_eq!(rt; datasets.len(), 2);
    assert!(rt; is_at(&datasets, 0, "u"));
    assert!(rt; is_at(&datasets, 1, "v"));
    Ok(())
}
