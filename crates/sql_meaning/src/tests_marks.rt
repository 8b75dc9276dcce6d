//! What a guess leaves in the result of a whole SELECT. The datasets are those of `tests.rt`.
use crate::tests::{datasets, gives};
use std::test::*;

#[test]
fn a_marked_on_leaves_pairs_and_lone_rows_unsure(rt: HostRuntime) {
    let alloc = rt.alloc();
    let env = datasets(&rt, alloc).expect(&rt, "memory");
    let cases: [(&str, &str); 4] = [
        // The price that could not be read is looked at only where the left of AND is TRUE.
        (
            "select l.id as a, p.id as b from l left join p on l.id = p.id and p.price > 2",
            "(#1,#1) 1 1; (#2,-) 3 null; ",
        ),
        (
            "select l.id as a, p.id as b from l left join p on p.price > 2 and l.id = p.id",
            "(#1,#1) 1 1; ?(#2,-) 3 null; open ",
        ),
        (
            "select l.id as a from l left join p on caveat(l.id = p.id, 'one?')",
            "?(#1,#1) 1; ?(#2,-) 3; open ",
        ),
        (
            "select l.id as a from l join p on caveat(l.id = p.id, 'one?')",
            "?(#1,#1) 1; open ",
        ),
    ];
    for (text, want) in cases.iter() {
        assert!(rt; gives(alloc, &env, text, want));
    }
}

#[test]
fn having_drops_groups_and_its_mark_opens(rt: HostRuntime) {
    let alloc = rt.alloc();
    let env = datasets(&rt, alloc).expect(&rt, "memory");
    let cases: [(&str, &str); 6] = [
        (
            "select id, count(*) as n from l group by id having id > 1",
            "[3] 3 1; ",
        ),
        (
            "select id from p group by id having max(price) > 2",
            "[1] 1; open ",
        ),
        ("select count(*) as n from l having count(*) > 1", "[] 2; "),
        ("select count(*) as n from l having count(*) > 2", ""),
        (
            "select count(*) as n from q having count(*) > 0",
            "?[] ~1; open ",
        ),
        ("select count(*) as n from q having count(*) > 1", "open "),
    ];
    for (text, want) in cases.iter() {
        assert!(rt; gives(alloc, &env, text, want));
    }
}

#[test]
fn order_by_names_a_column_by_its_position_and_limit_may_leave_none(rt: HostRuntime) {
    let alloc = rt.alloc();
    let env = datasets(&rt, alloc).expect(&rt, "memory");
    let cases: [(&str, &str); 4] = [
        ("select id, 0 - id from l order by c2", "#2 3 -3; #1 1 -1; "),
        ("select id, id + 1 from l order by c1", "NoColumn"),
        ("select id from l limit 0", ""),
        ("select id from q limit 0", "open "),
    ];
    for (text, want) in cases.iter() {
        assert!(rt; gives(alloc, &env, text, want));
    }
}
