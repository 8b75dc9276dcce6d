//! Joins of sides that are uncertain in several ways at once, or on the left.
use crate::Kind;
use crate::tests::{Side, closed, shows};
use std::test::*;

fn guessed(side: Side) -> Side {
    Side {
        marked: true,
        ..side
    }
}

fn open(side: Side) -> Side {
    Side {
        is_open: true,
        ..side
    }
}

// A row can be unsure in an open dataset alone.
fn unsure(side: Side) -> Side {
    Side {
        sure: false,
        ..open(side)
    }
}

fn loose(side: Side) -> Side {
    Side {
        is_loose: true,
        ..side
    }
}

#[test]
fn a_pair_by_a_marked_on_stands_for_its_left_row(rt: HostRuntime) {
    let alloc = rt.alloc();
    let right = guessed(closed(3, 1));
    let want = "?(#1,#2) 1 ~1; ?(#2,-) 2 null; open";
    assert!(rt; shows(&rt, alloc, Kind::Outer, closed(1, 2), right, want));
}

#[test]
fn a_mark_on_the_left_doubts_the_absence_of_its_own_row_alone(rt: HostRuntime) {
    let alloc = rt.alloc();
    let left = guessed(closed(1, 2));
    let none = "(#1,-) 1 null; ?(#2,-) ~2 null; open";
    let first = "(#1,#1) 1 1; ?(#2,-) ~2 null; open";
    let second = "(#1,-) 1 null; ?(#2,#1) ~2 2; open";
    assert!(rt; shows(&rt, alloc, Kind::Outer, left, closed(3, 4), none));
    assert!(rt; shows(&rt, alloc, Kind::Outer, left, closed(1, 4), first));
    assert!(rt; shows(&rt, alloc, Kind::Outer, left, closed(2, 4), second));
}

#[test]
fn an_on_that_is_false_by_a_mark_opens_a_join(rt: HostRuntime) {
    let alloc = rt.alloc();
    let left = guessed(closed(1, 2));
    assert!(rt; shows(&rt, alloc, Kind::Inner, left, closed(3, 4), "open"));
    assert!(rt;
        shows(
            &rt,
            alloc,
            Kind::Inner,
            left,
            closed(1, 4),
            "(#1,#1) 1 1; open"
        )
    );
}

#[test]
fn an_unsure_row_has_no_sure_pair_and_takes_the_place_of_absence(rt: HostRuntime) {
    let alloc = rt.alloc();
    let right = unsure(closed(3, 2));
    let inner = "?(#2,#2) 2 2; open";
    let outer = "?(#1,-) 1 null; ?(#2,#2) 2 2; open";
    assert!(rt; shows(&rt, alloc, Kind::Inner, closed(1, 2), right, inner));
    assert!(rt; shows(&rt, alloc, Kind::Outer, closed(1, 2), right, outer));
}

#[test]
fn an_unsure_row_under_a_marked_on_is_unsure_once(rt: HostRuntime) {
    let alloc = rt.alloc();
    let left = guessed(unsure(closed(1, 2)));
    let pair = "(#1,#1) 1 1; ?(#2,#2) ~2 2; open";
    let alone = "(#1,-) 1 null; ?(#2,-) ~2 null; open";
    assert!(rt; shows(&rt, alloc, Kind::Inner, left, closed(1, 2), pair));
    assert!(rt; shows(&rt, alloc, Kind::Outer, left, closed(3, 4), alone));
}

#[test]
fn open_and_loose_sides_leave_both_flags(rt: HostRuntime) {
    let alloc = rt.alloc();
    let two = closed(1, 2);
    let pairs = "(#1,#1) 1 1; (#2,#2) 2 2; open loose";
    let alone = "?(#1,-) 1 null; ?(#2,-) 2 null; open loose";
    assert!(rt; shows(&rt, alloc, Kind::Inner, loose(two), open(two), pairs));
    assert!(rt; shows(&rt, alloc, Kind::Inner, open(two), loose(two), pairs));
    assert!(rt;
        shows(
            &rt,
            alloc,
            Kind::Outer,
            loose(two),
            open(closed(3, 4)),
            alone
        )
    );
}
