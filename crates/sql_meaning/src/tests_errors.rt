//! SELECTs with two errors: the one that is looked for first is told. The datasets are those of `tests.rt`.
use crate::tests::{datasets, gives};
use std::test::*;

#[test]
fn each_check_comes_before_the_next(rt: HostRuntime) {
    let alloc = rt.alloc();
    let env = datasets(&rt, alloc).expect(&rt, "memory");
    let cases: [(&str, &str); 9] = [
        ("select id from p join none as p on true", "NoDataset"),
        ("select id from p join l as p on none", "NameTaken"),
        ("select price from p join l on none where 1", "NoColumn"),
        ("select id from p where 1 group by none", "TypeFault"),
        ("select id from p group by none having 1", "NoColumn"),
        ("select none from p group by id having 1", "TypeFault"),
        ("select id, id, none from p", "NoColumn"),
        (
            "select id, id from p union all select none from p",
            "NameTaken",
        ),
        (
            "select none from p union all select id from p join l as p on true",
            "NoColumn",
        ),
    ];
    for (text, want) in cases.iter() {
        assert!(rt; gives(alloc, &env, text, want));
    }
}

#[test]
fn all_cores_are_checked_before_their_sides_and_the_order(rt: HostRuntime) {
    let alloc = rt.alloc();
    let env = datasets(&rt, alloc).expect(&rt, "memory");
    let cases: [(&str, &str); 3] = [
        (
            "select id from p union all select id, price as id from p",
            "NameTaken",
        ),
        (
            "select id from p union all select price from p order by none",
            "TypeFault",
        ),
        ("select id / 0 as x from p order by none", "NoColumn"),
    ];
    for (text, want) in cases.iter() {
        assert!(rt; gives(alloc, &env, text, want));
    }
}

#[test]
fn each_step_is_whole_before_the_next(rt: HostRuntime) {
    let alloc = rt.alloc();
    let env = datasets(&rt, alloc).expect(&rt, "memory");
    let cases: [(&str, &str); 5] = [
        (
            "select 1 as x from l join p on 1 / (l.id - 3) = 0 where cast('z' as int) = 1",
            "ZeroDivisor",
        ),
        (
            "select cast('z' as int) as x from l where 1 / (id - 3) = 0",
            "ZeroDivisor",
        ),
        (
            "select cast('z' as int) as x from l group by id having 1 / (id - 3) = 0",
            "ZeroDivisor",
        ),
        (
            "select cast('z' as int) as x from l union all select 1 / 0 as x from l",
            "BadCast",
        ),
        (
            "select 1 / (id - 3) as x, cast('z' as int) as y from l",
            "BadCast",
        ),
    ];
    for (text, want) in cases.iter() {
        assert!(rt; gives(alloc, &env, text, want));
    }
}
