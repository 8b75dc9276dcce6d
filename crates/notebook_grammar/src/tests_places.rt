//! Where sentences err: at a token that can't stand there, and at a level too many. Places are counted by hand.
use crate::start::Start;
use crate::tests::error_of;
use std::alloc::Global;
use std::process::Abort;
use std::test::Fail;

/// Each front of the sentence errs at the token that comes after it in place of the right one, and the whole does not.
fn errs_at_each(rt: &impl Abort, alloc: Global, sentence: &str, wrong: &str) -> Result<(), Fail> {
    let mut front = String::new(alloc);
    let mut tokens = sentence.split(' ');
    for token in wrong.split(' ') {
        let mut text = String::from_str(alloc, front.as_str())?;
        text.push_str(token)?;
        assert!(rt; front.len() < 65_536);
        let place = front.len() as u32;
        assert_eq!(rt;
            error_of(rt, alloc, text.as_str(), Start::Expression),
            Some(place)
        );
        if let Some(right) = tokens.next() {
            front.push_str(right)?;
            front.push(' ')?;
        }
    }
    assert_eq!(rt;
        error_of(rt, alloc, front.as_str(), Start::Expression),
        None
    );
    Ok(())
}

#[test]
fn a_wrong_token_is_the_place_wherever_it_stands(rt: HostRuntime) -> Result<(), Fail> {
    let cases: [(&str, &str); 12] = [
        ("a + b * c", ") b + ( = c"),
        ("NOT a = b OR c", "= OR b NOT = OR a"),
        ("x IS NOT NULL", "IS NULL x NOT IS"),
        ("a NOT IN ( 1 , b )", ") 1 IS 1 ) 1 ) 1 IN"),
        ("a LIKE 'x%' AND b", "LIKE 'x%' LIKE LIKE AND 'x'"),
        (
            "CASE WHEN a THEN b ELSE c END",
            "WHEN a THEN ELSE END THEN END WHEN END",
        ),
        ("COALESCE ( a , 1.5 )", ", a ) 1.5 , ( ("),
        ("CAST ( a AS fixed )", "AS a AS fixed a , fixed"),
        ("CAVEAT ( a , 'why' )", ", 'why' , ) a , 'why'"),
        ("COUNT ( * ) - MAX ( t . a )", "* * ) a COUNT * a ) a 1 . ("),
        ("- ( 1 <= - 2 ) || 'a'", "|| ) ) 1 <= <= <= 1 || 'a'"),
        ("TRUE <> ABS ( NULL ) % 2", "% TRUE <> NULL % NULL <> ) <>"),
    ];
    for (sentence, wrong) in cases.iter() {
        errs_at_each(&rt, rt.alloc(), sentence, wrong)?;
    }
    Ok(())
}

/// So many openings, and then a 1.
fn nested(alloc: Global, opening: &str, levels: u32) -> Result<String, Fail> {
    let mut text = String::new(alloc);
    for _ in 0..levels {
        text.push_str(opening)?;
    }
    text.push('1')?;
    Ok(text)
}

#[test]
fn every_opening_is_a_level(rt: HostRuntime) -> Result<(), Fail> {
    // With 64 of them the text ends too early or is whole, and the 65th is the place.
    let cases: [(&str, Option<u32>, u32); 10] = [
        ("(", Some(65), 64),
        ("- ", None, 128),
        ("not ", None, 256),
        ("abs(", Some(257), 256),
        ("coalesce(", Some(577), 576),
        ("caveat(", Some(449), 448),
        ("case when ", Some(641), 640),
        ("cast(", Some(321), 320),
        ("length(", Some(449), 448),
        ("1 in (", Some(385), 386),
    ];
    for (opening, whole, place) in cases.iter() {
        let most = nested(rt.alloc(), opening, 64)?;
        assert_eq!(rt;
            error_of(&rt, rt.alloc(), most.as_str(), Start::Expression),
            *whole
        );
        let more = nested(rt.alloc(), opening, 65)?;
        assert_eq!(rt;
            error_of(&rt, rt.alloc(), more.as_str(), Start::Expression),
            Some(*place)
        );
    }
    Ok(())
}

#[test]
fn every_block_is_a_level(rt: HostRuntime) -> Result<(), Fail> {
    // With 64 of them the text ends too early, and the 65th is the place.
    let cases: [(&str, u32, u32); 3] = [
        ("if x {", 384, 384),
        ("while x {", 576, 576),
        ("for r in t {", 768, 768),
    ];
    for (opening, end, place) in cases.iter() {
        let mut text = String::new(rt.alloc());
        for _ in 0..64 {
            text.push_str(opening)?;
        }
        assert_eq!(rt;
            error_of(&rt, rt.alloc(), text.as_str(), Start::Script),
            Some(*end)
        );
        text.push_str(opening)?;
        assert_eq!(rt;
            error_of(&rt, rt.alloc(), text.as_str(), Start::Script),
            Some(*place)
        );
    }
    Ok(())
}
