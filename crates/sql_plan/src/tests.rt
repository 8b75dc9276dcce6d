//! Plans over three datasets: `p` has the columns id (an Int) and price (a Fixed), `q` has id alone, and `r` has city (a Text).
//! A plan is shown as one line: the output columns of each core with its keys, and then the keys of the order.
use crate::{CorePlan, Heading, Headings, Plan, plan_of};
use cell_errors::{CellError, EvalFault};
use dataset_types::{Column, Columns};
use sql_parse::parse_select;
use std::alloc::Global;
use std::test::*;
use value_types::{ColumnType, Name, NoMemory, Words, read_name};

fn named(text: &str) -> Result<Name, NoMemory> {
    read_name(text.as_bytes()).ok_or(NoMemory)
}

fn heading(alloc: Global, dataset: &str, list: &[(&str, ColumnType)]) -> Result<Heading, NoMemory> {
    let mut columns = Columns::new(alloc)?;
    for (name, kind) in list {
        let name = named(name)?;
        columns.push(alloc, Column { name, kind: *kind })?;
    }
    let dataset = named(dataset)?;
    Ok(Heading { dataset, columns })
}

fn headings(alloc: Global) -> Result<Headings, NoMemory> {
    let mut all = Headings::new(alloc)?;
    let p = [("id", ColumnType::Int), ("price", ColumnType::Fixed)];
    all.push(alloc, heading(alloc, "p", &p)?)?;
    all.push(alloc, heading(alloc, "q", &[("id", ColumnType::Int)])?)?;
    all.push(alloc, heading(alloc, "r", &[("city", ColumnType::Text)])?)?;
    Ok(all)
}

fn type_word(kind: ColumnType) -> &'static str {
    match kind {
        ColumnType::Bool => " bool, ",
        ColumnType::Int => " int, ",
        ColumnType::Fixed => " fixed, ",
        ColumnType::Text => " text, ",
    }
}

fn push_number(alloc: Global, out: &mut Words, number: u32) -> Result<(), NoMemory> {
    let text = format!(in alloc; " {number}")?;
    out.push_text(alloc, text.as_str())
}

fn push_core(alloc: Global, out: &mut Words, core: &CorePlan) -> Result<(), NoMemory> {
    for one in core.columns.as_slice() {
        out.push_text(alloc, one.column.name.as_text())?;
        out.push_text(alloc, type_word(one.column.kind))?;
    }
    if let Some(keys) = &core.keys {
        out.push_text(alloc, "keys")?;
        for key in keys.as_slice() {
            push_number(alloc, out, *key)?;
        }
    }
    out.push_text(alloc, ";")
}

fn push_plan(alloc: Global, out: &mut Words, plan: &Plan) -> Result<(), NoMemory> {
    for core in plan.cores.as_slice() {
        push_core(alloc, out, core)?;
    }
    for key in plan.order.as_slice() {
        push_number(alloc, out, key.column)?;
        out.push_text(alloc, if key.descending { " down" } else { " up" })?;
    }
    Ok(())
}

fn error_name(error: CellError) -> &'static str {
    match error {
        CellError::NoColumn => "NoColumn",
        CellError::TypeFault => "TypeFault",
        CellError::NameTaken => "NameTaken",
        _ => "another error",
    }
}

fn line_of(alloc: Global, text: &str) -> Result<Words, NoMemory> {
    let mut out = Words::new(alloc)?;
    if text.len() >= 65_536 {
        return Ok(out);
    }
    let select = match parse_select(alloc, text) {
        Ok(select) => select,
        Err(_) => return Ok(out),
    };
    match plan_of(alloc, &select, &headings(alloc)?) {
        Ok(plan) => push_plan(alloc, &mut out, &plan)?,
        Err(EvalFault::Error(error)) => out.push_text(alloc, error_name(error))?,
        Err(EvalFault::NoMemory) => return Err(NoMemory),
    }
    Ok(out)
}

fn gives(alloc: Global, text: &str, want: &str) -> bool {
    match line_of(alloc, text) {
        Ok(line) => line.as_text() == want,
        Err(_) => false,
    }
}

#[test]
fn items_have_names_types_and_keys(rt: HostRuntime) {
    let cases: [(&str, &str); 9] = [
        (
            "select * from p join r on true",
            "id int, price fixed, city text, ;",
        ),
        (
            "select (id), p.price, id + 1, null, price as total from p",
            "id int, price fixed, c3 int, c4 text, total fixed, ;",
        ),
        (
            "select city, count(*) as n, sum(price) from p join r on true group by city",
            "city text, n int, c3 fixed, keys 3;",
        ),
        ("select count(*) from p", "c1 int, keys;"),
        ("select 1 from p having null", "c1 int, keys;"),
        (
            "select price from p group by price, p.price",
            "price fixed, keys 2 2;",
        ),
        (
            "select case when max(id) > 1 then 1 end as m from p",
            "m int, keys;",
        ),
        (
            "select p.id from p left join q on p.id = q.id group by p.id",
            "id int, keys 1;",
        ),
        (
            "select id, price from p union all select 1, 2.5 from r order by price desc, id",
            "id int, price fixed, ;c1 int, c2 fixed, ; 2 down 1 up",
        ),
    ];
    for (text, want) in cases.iter() {
        assert!(rt; gives(rt.alloc(), text, want));
    }
}

#[test]
fn the_first_check_that_fails_decides(rt: HostRuntime) {
    let cases: [(&str, &str); 18] = [
        ("select none from p join p on 1", "NameTaken"),
        ("select p.id from p join q on 1 where none", "TypeFault"),
        (
            "select p.id from p join q on city = 'x' join r on true",
            "NoColumn",
        ),
        ("select none from p where 1", "TypeFault"),
        ("select 1 + 'x' from p group by none", "NoColumn"),
        ("select none from p group by id having 1", "TypeFault"),
        ("select id, id, none from p", "NoColumn"),
        ("select id, id from p", "NameTaken"),
        ("select * from p join q on true", "NameTaken"),
        (
            "select id from p union all select id, id from p",
            "NameTaken",
        ),
        (
            "select id from p union all select price from p order by none",
            "TypeFault",
        ),
        (
            "select id from p union all select id, price from p",
            "TypeFault",
        ),
        ("select id from p order by price", "NoColumn"),
        ("select price from p group by id", "NoColumn"),
        ("select * from p group by id", "NoColumn"),
        ("select id from p join q on true group by p.id", "NoColumn"),
        ("select id from p where count(*) > 1", "TypeFault"),
        ("select sum(count(*)) from p", "TypeFault"),
    ];
    for (text, want) in cases.iter() {
        assert!(rt; gives(rt.alloc(), text, want));
    }
}
