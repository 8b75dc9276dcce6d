//! Texts, printed and read again. Expected texts are worked out by hand.
use crate::print_expr;
use expr_parse::parse_expr;
use std::alloc::Global;
use std::process::Abort;
use value_types::Words;

/// The printed text of what a text is.
fn printed(rt: &impl Abort, alloc: Global, text: &str) -> Words {
    assert!(rt; text.len() < 65_536);
    let Ok(expr) = parse_expr(alloc, text) else {
        panic!(rt; "no expression");
    };
    let Ok(words) = print_expr(alloc, &expr) else {
        panic!(rt; "no memory");
    };
    words
}

#[test]
fn a_printed_text_is_read_and_printed_again(rt: HostRuntime) {
    let cases: [(&str, &str); 7] = [
        ("a+2.5*-t.b", "( a + ( 2.5000 * ( - t . b ) ) ) "),
        (
            "NOT x IS NOT NULL OR 'it''s' like y",
            "( ( NOT ( x IS NOT NULL ) ) OR ( 'it''s' LIKE y ) ) ",
        ),
        (
            "x not in (1, null, true)",
            "( x NOT IN ( 1 , NULL , TRUE ) ) ",
        ),
        (
            "case when a<>b then 1 when c then 2 else 3 end",
            "CASE WHEN ( a <> b ) THEN 1 WHEN c THEN 2 ELSE 3 END ",
        ),
        (
            "coalesce(caveat(a, 'm'), cast(text as fixed))",
            "COALESCE ( CAVEAT ( a , 'm' ) , CAST ( text AS fixed ) ) ",
        ),
        ("sum(a)/count(*)", "( SUM ( a ) / COUNT ( * ) ) "),
        ("length(trim(a)||'')", "LENGTH ( ( TRIM ( a ) || '' ) ) "),
    ];
    for (text, expected) in cases.iter() {
        let once = printed(&rt, rt.alloc(), text);
        assert_eq!(rt; once.as_text(), *expected);
        let again = printed(&rt, rt.alloc(), once.as_text());
        assert_eq!(rt; again.as_text(), *expected);
    }
}
