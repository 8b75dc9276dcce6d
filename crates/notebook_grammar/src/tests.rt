//! Tokens, sentences and their steps. Expected places are counted by hand.
//!
//! What other test modules call has no contract: tests look at what they get.
use crate::action::{Action, ExprAction};
use crate::fault::ParseFault;
use crate::kind::Kind;
use crate::lexeme::Lexeme;
use crate::start::Start;
use crate::steps::steps_of;
use crate::token::{TokenKind, tokens};
use ll1_grammar::Step;
use std::alloc::Global;
use std::process::Abort;
use std::test::Fail;

/// The place where the text errs, or none.
pub(crate) fn error_of(rt: &impl Abort, alloc: Global, text: &str, start: Start) -> Option<u32> {
    assert!(rt; text.len() < 65_536);
    match steps_of(alloc, text, start) {
        Ok(_) => None,
        Err(ParseFault::Syntax { at }) => Some(at),
        Err(ParseFault::NoMemory) => panic!(rt; "no memory"),
    }
}

#[test]
fn tokens_are_the_longest(rt: HostRuntime) -> Result<(), Fail> {
    let found = tokens(rt.alloc(), "a1 <=1.23456'it''s'");
    let Ok(found) = found else {
        panic!(&rt; "no tokens");
    };
    let found = found.as_slice();
    assert!(rt; found.len() == 5);
    assert!(rt; matches!(found[1].kind, TokenKind::Mark) && found[1].end == 5);
    assert!(rt; matches!(found[2].kind, TokenKind::Number) && found[2].end == 11);
    assert!(rt; matches!(found[4].kind, TokenKind::Quoted) && found[4].at == 12);
    assert!(rt;
        matches!(
            tokens(rt.alloc(), "'a''b"),
            Err(ParseFault::Syntax { at: 3 })
        )
    );
    Ok(())
}

#[test]
fn expressions_err_at_the_right_place(rt: HostRuntime) {
    let cases: [(&str, Option<u32>); 34] = [
        ("1 + 2 * x", None),
        ("", Some(0)),
        ("1 +", Some(3)),
        ("x not", Some(5)),
        ("x not + 1", Some(6)),
        ("x NOT like 'a%' AND NOT y is not null", None),
        ("a.b.c", Some(3)),
        ("1.", Some(1)),
        ("1.23456", Some(6)),
        ("12abc", Some(2)),
        ("'a''b", Some(3)),
        ("case end", Some(5)),
        ("case when a then b when c then d else e end", None),
        ("coalesce()", Some(9)),
        ("cast(a as INT)", None),
        ("cast(a as b)", Some(10)),
        ("select", Some(0)),
        ("a = b = c", Some(6)),
        ("9223372036854775807", None),
        ("9223372036854775808", Some(0)),
        ("922337203685477.5807", None),
        ("922337203685477.5808", Some(0)),
        ("_a", Some(0)),
        ("int + a_1", None),
        ("count(*) + count(a) + sum(b)", None),
        ("count(*, 1)", Some(7)),
        ("caveat(a, 'it''s')", None),
        ("caveat(a, b)", Some(10)),
        ("a in (1, 2) or not b", None),
        ("a in ()", Some(6)),
        ("a <> b || c != d", Some(12)),
        ("aaaaaaaaaaaaaaaaaaaaaaaaaaaaaaaa", None),
        ("aaaaaaaaaaaaaaaaaaaaaaaaaaaaaaaaa", Some(0)),
        ("a # b", Some(2)),
    ];
    for (text, place) in cases.iter() {
        assert_eq!(rt; error_of(&rt, rt.alloc(), text, Start::Expression), *place);
    }
}

#[test]
fn selects_err_at_the_right_place(rt: HostRuntime) {
    let cases: [(&str, Option<u32>); 12] = [
        ("select * from t", None),
        (
            "SELECT distinct a AS b, t.c FROM t left join u v on a = v.b where a;",
            None,
        ),
        (
            "select a from t group by a, t.b having 1 order by a desc, b limit 3",
            None,
        ),
        ("select * from t limit 1.5", Some(22)),
        ("select * from t as u v", Some(21)),
        ("select * from t union select * from u", Some(22)),
        ("select a, from t", Some(10)),
        ("select * from t join u", Some(22)),
        ("select * from t;;", Some(16)),
        (
            "select * from a join b on 1 inner join c on 1 left outer join d on 1",
            None,
        ),
        (
            "select * from a join b on 1 join c on 1 join d on 1 join e on 1",
            Some(52),
        ),
        ("select * from a order by 1", Some(25)),
    ];
    for (text, place) in cases.iter() {
        assert_eq!(rt; error_of(&rt, rt.alloc(), text, Start::Select), *place);
    }
}

#[test]
fn scripts_err_at_the_right_place(rt: HostRuntime) {
    let cases: [(&str, Option<u32>); 12] = [
        ("", None),
        ("table t ( a int, b text ) ; x = 1 ; print x;", None),
        ("if x { print x; } else { } while x { }", None),
        ("for r in t { emit t(r.a, 1); } for i = 1 to 3 { }", None),
        ("for r in ('t' || x) { } write t as u; drop u;", None),
        ("drop (x);", Some(5)),
        ("x = exists 'select'; y = rows 't';", None),
        ("x = 1", Some(5)),
        ("print x; table t (a int);", Some(9)),
        ("if x print y;", Some(5)),
        ("emit t();", Some(7)),
        ("for x in 1 { }", Some(9)),
    ];
    for (text, place) in cases.iter() {
        assert_eq!(rt; error_of(&rt, rt.alloc(), text, Start::Script), *place);
    }
}

#[test]
fn the_last_token_of_an_expression(rt: HostRuntime) -> Result<(), Fail> {
    let mut text = String::new(rt.alloc());
    text.push_str("- 1")?;
    for _ in 0..499 {
        text.push_str("+1")?;
    }
    assert_eq!(rt;
        error_of(&rt, rt.alloc(), text.as_str(), Start::Expression),
        None
    );
    text.push_str(" + 1")?;
    assert_eq!(rt;
        error_of(&rt, rt.alloc(), text.as_str(), Start::Expression),
        Some(1002)
    );
    Ok(())
}

#[test]
fn two_expressions_are_counted_apart(rt: HostRuntime) -> Result<(), Fail> {
    let mut text = String::new(rt.alloc());
    for _ in 0..2 {
        // 1,000 tokens each, and the one that merely ends it.
        text.push_str("print -1")?;
        for _ in 0..499 {
            text.push_str("+1")?;
        }
        text.push(';')?;
    }
    assert_eq!(rt;
        error_of(&rt, rt.alloc(), text.as_str(), Start::Script),
        None
    );
    Ok(())
}

#[test]
fn steps_are_tokens_and_actions_in_order(rt: HostRuntime) {
    let Ok(steps) = steps_of(rt.alloc(), "caveat(a, 'm')", Start::Expression) else {
        panic!(rt; "no steps");
    };
    let steps = steps.as_slice();
    assert!(rt; steps.len() == 10);
    assert!(rt;
        matches!(
            steps[1],
            Step::Took(Lexeme {
                at: 0,
                end: 6,
                call: 1,
                ..
            })
        )
    );
    assert!(rt; matches!(steps[4], Step::Did(Action::Expr(ExprAction::Bare))));
    assert!(rt;
        matches!(
            steps[6],
            Step::Took(Lexeme {
                kind: Kind::Quoted,
                ..
            })
        )
    );
    assert!(rt; matches!(steps[8], Step::Did(Action::Expr(ExprAction::Caveat))));
}
