//! Texts and their trees. Expected trees and places are worked out by hand from the grammar.
use crate::{Core, CoreItems, ParseFault, Select, names_of, parse_select};
use expr_lang::Expr;
use std::alloc::Global;
use std::process::Abort;
use std::test::Fail;
use value_types::{Name, Names};

fn tree_of(rt: &impl Abort, alloc: Global, text: &str) -> Select {
    assert!(rt; text.len() < 65_536);
    match parse_select(alloc, text) {
        Ok(tree) => tree,
        Err(_) => panic!(rt; "no tree"),
    }
}

/// The place where the text errs, or none.
fn error_of(rt: &impl Abort, alloc: Global, text: &str) -> Option<u32> {
    assert!(rt; text.len() < 65_536);
    match parse_select(alloc, text) {
        Ok(_) => None,
        Err(ParseFault::Syntax { at }) => Some(at),
        Err(ParseFault::NoMemory) => panic!(rt; "no memory"),
    }
}

fn is_name(name: &Option<Name>, text: &str) -> bool {
    match name {
        Some(name) => name.as_text() == text,
        None => false,
    }
}

fn only_core<'a>(rt: &impl Abort, select: &'a Select) -> &'a Core {
    assert_eq!(rt; select.cores.len(), 1);
    match select.cores.get(0) {
        Some(core) => core,
        None => panic!(rt; "no core"),
    }
}

#[test]
fn a_select_has_all_its_parts(rt: HostRuntime) -> Result<(), Fail> {
    let text =
        "SELECT DISTINCT a, t.b + 1 AS c FROM t INNER JOIN u AS v ON 1 LEFT OUTER JOIN w x ON 2 \
        WHERE a GROUP BY a, t.b HAVING COUNT(*) ORDER BY c DESC, a LIMIT 9223372036854775807;";
    let select = tree_of(&rt, rt.alloc(), text);
    assert_eq!(rt; select.limit, Some(9_223_372_036_854_775_807));
    let keys = select.order.as_slice();
    assert_eq!(rt; keys.len(), 2);
    assert!(rt; keys.get(0).ok_or("no key")?.descending);
    assert!(rt; !keys.get(1).ok_or("no key")?.descending);
    let core = only_core(&rt, &select);
    assert!(rt; core.distinct);
    match &core.items {
        CoreItems::Listed(items) => {
            assert_eq!(rt; items.len(), 2);
            assert!(rt; items.get(0).ok_or("no item")?.name.is_none());
            assert!(rt; is_name(&items.get(1).ok_or("no item")?.name, "c"));
        }
        CoreItems::All => panic!(rt; "no items"),
    }
    assert_eq!(rt; core.table.qualifier.as_text(), "t");
    let inner = core.joins.get(0).ok_or("no join")?;
    assert!(rt; !inner.left);
    assert_eq!(rt; inner.table.dataset.as_text(), "u");
    assert_eq!(rt; inner.table.qualifier.as_text(), "v");
    let left = core.joins.get(1).ok_or("no join")?;
    assert!(rt; left.left);
    assert_eq!(rt; left.table.qualifier.as_text(), "x");
    assert!(rt; matches!(&core.condition, Some(Expr::Column { .. })));
    assert!(rt; matches!(&core.having, Some(Expr::CountAll)));
    assert_eq!(rt; core.group_by.len(), 2);
    assert!(rt; is_name(&core.group_by.get(1).ok_or("no column")?.qualifier, "t"));
    Ok(())
}

#[test]
fn a_text_errs_at_its_place(rt: HostRuntime) {
    let cases: [(&str, Option<u32>); 8] = [
        ("select * from t union all select * from t", None),
        ("", Some(0)),
        ("select from t", Some(7)),
        ("select * from t limit 1.5", Some(22)),
        ("select * from t limit 9223372036854775808", Some(22)),
        ("select *, a from t", Some(8)),
        ("select * from t join u", Some(22)),
        ("select * from t a b", Some(18)),
    ];
    for (text, place) in cases.iter() {
        assert_eq!(rt; error_of(&rt, rt.alloc(), text), *place);
    }
}

#[test]
fn four_cores_and_four_tables_are_the_most(rt: HostRuntime) {
    let cores = "select * from a union all select * from b union all select * from c \
        union all select * from d union all select * from e";
    assert_eq!(rt; error_of(&rt, rt.alloc(), cores), Some(94));
    let tables = "select * from a join b on 1 join c on 1 left join d on 1 inner join e on 1";
    assert_eq!(rt; error_of(&rt, rt.alloc(), tables), Some(57));
}

fn is_at(names: &Names, at: usize, text: &str) -> bool {
    match names.get(at) {
        Some(name) => name.as_text() == text,
        None => false,
    }
}

#[test]
fn a_dataset_is_named_once(rt: HostRuntime) -> Result<(), Fail> {
    let text = "select * from b x join a on 1 join b y on 1 union all select * from c join a on 1";
    let select = tree_of(&rt, rt.alloc(), text)
        .copy(rt.alloc())
        .ok()
        .ok_or("no copy")?;
    let names = names_of(rt.alloc(), &select).ok().ok_or("no names")?;
    assert_eq!(rt; names.len(), 3);
    assert!(rt; is_at(&names, 0, "b"));
    assert!(rt; is_at(&names, 1, "a"));
    assert!(rt; is_at(&names, 2, "c"));
    Ok(())
}
