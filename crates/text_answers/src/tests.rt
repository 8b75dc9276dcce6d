//! Texts and what they are, worked out by hand from the grammar.
use crate::{parsed_expr, parsed_select};
use cell_errors::{CellError, EvalFault};
use expr_lang::{BinaryOp, Expr};
use std::alloc::Global;
use std::test::Fail;
use value_types::{NoMemory, Words};

fn words(alloc: Global, text: &str) -> Result<Words, NoMemory> {
    let mut all = Words::new(alloc)?;
    all.push_text(alloc, text)?;
    Ok(all)
}

/// The place where a call says that the text errs, or none.
fn place_of(fault: EvalFault) -> Option<u32> {
    match fault {
        EvalFault::Error(CellError::Syntax { at }) => Some(at),
        _ => None,
    }
}

#[test]
fn a_formula_is_its_tree_or_errs_at_its_place(rt: HostRuntime) -> Result<(), Fail> {
    let sum = words(rt.alloc(), "a + 1").ok().ok_or("no memory")?;
    match parsed_expr(rt.alloc(), &sum) {
        Ok(Expr::Binary(BinaryOp::Add, left, _)) => {
            assert!(rt; matches!(left.get(), Expr::Column { .. }));
        }
        _ => panic!(rt; "no sum"),
    }
    let cases: [(&str, u32); 4] = [("", 0), ("a +", 3), ("a + ) 1", 4), ("a b #", 2)];
    for (text, place) in cases.iter() {
        let formula = words(rt.alloc(), text).ok().ok_or("no memory")?;
        let fault = parsed_expr(rt.alloc(), &formula).err().ok_or("no error")?;
        assert_eq!(rt; place_of(fault), Some(*place));
    }
    Ok(())
}

#[test]
fn a_query_is_its_tree_or_errs_at_its_place(rt: HostRuntime) -> Result<(), Fail> {
    let text = words(rt.alloc(), "select * from t limit 5")
        .ok()
        .ok_or("no memory")?;
    let query = parsed_select(rt.alloc(), &text).ok().ok_or("no query")?;
    assert_eq!(rt; query.limit, Some(5));
    assert_eq!(rt; query.cores.len(), 1);
    let cases: [(&str, u32); 3] = [("a + 1", 0), ("select from t", 7), ("select * from", 13)];
    for (text, place) in cases.iter() {
        let query = words(rt.alloc(), text).ok().ok_or("no memory")?;
        let fault = parsed_select(rt.alloc(), &query).err().ok_or("no error")?;
        assert_eq!(rt; place_of(fault), Some(*place));
    }
    Ok(())
}
