//! Copies, with ample memory. A copy is proved to be equal wherever it succeeds.
use crate::{Arm, BinaryOp, Expr, Exprs, UnaryOp};
use sqlite_items::Boxed;
use std::alloc::Global;
use std::process::Abort;
use value_types::{ColumnType, ListOf, NoMemory, Value, Words, read_name};

fn boxed(alloc: Global, n: i64) -> Result<Boxed<Expr>, NoMemory> {
    Ok(Boxed::new(alloc, Expr::Literal(Value::Int(n)))?)
}

fn column() -> Result<Expr, NoMemory> {
    Ok(Expr::Column {
        qualifier: Some(read_name(b"t").ok_or(NoMemory)?),
        name: read_name(b"a").ok_or(NoMemory)?,
    })
}

fn call(alloc: Global) -> Result<Expr, NoMemory> {
    let mut message = Words::new(alloc)?;
    message.push_text(alloc, "why")?;
    Ok(Expr::Caveat {
        of: boxed(alloc, 1)?,
        message,
        call: 7,
    })
}

fn case(alloc: Global) -> Result<Expr, NoMemory> {
    let mut arms = ListOf::new(alloc)?;
    let arm = Arm {
        condition: column()?,
        answer: call(alloc)?,
    };
    arms.push(alloc, arm)?;
    Ok(Expr::Case {
        arms,
        otherwise: Some(boxed(alloc, 2)?),
    })
}

// One of each form with one operand, after a CASE.
fn forms(alloc: Global) -> Result<Exprs, NoMemory> {
    let mut list = ListOf::new(alloc)?;
    list.push(alloc, case(alloc)?)?;
    list.push(alloc, Expr::Unary(UnaryOp::Trim, boxed(alloc, 1)?))?;
    list.push(alloc, Expr::CountAll)?;
    list.push(alloc, Expr::Count(boxed(alloc, 1)?))?;
    list.push(alloc, Expr::Sum(boxed(alloc, 1)?))?;
    list.push(alloc, Expr::Min(boxed(alloc, 1)?))?;
    list.push(alloc, Expr::Max(boxed(alloc, 1)?))?;
    Ok(list)
}

fn longer(alloc: Global) -> Result<Exprs, NoMemory> {
    let mut list = forms(alloc)?;
    let (of, kind) = (boxed(alloc, 1)?, ColumnType::Text);
    list.push(alloc, Expr::Cast { of, kind })?;
    let (of, pattern) = (boxed(alloc, 1)?, boxed(alloc, 2)?);
    list.push(
        alloc,
        Expr::Like {
            of,
            pattern,
            negated: true,
        },
    )?;
    let of = boxed(alloc, 3)?;
    list.push(alloc, Expr::IsNull { of, negated: false })?;
    Ok(list)
}

fn whole(alloc: Global) -> Result<Expr, NoMemory> {
    let list = longer(alloc)?;
    let of = Expr::OneOf {
        of: boxed(alloc, 1)?,
        list,
        negated: true,
    };
    let left = Boxed::new(alloc, of)?;
    let right = Expr::Coalesce(ListOf::new(alloc)?);
    Ok(Expr::Binary(BinaryOp::And, left, Boxed::new(alloc, right)?))
}

fn copied(alloc: Global) -> Result<Expr, NoMemory> {
    whole(alloc)?.copy(alloc)
}

#[test]
fn a_tree_of_every_form_is_copied(rt: HostRuntime) {
    let alloc = rt.alloc();
    assert!(rt; matches!(copied(alloc), Ok(Expr::Binary(BinaryOp::And, _, _))));
}

fn arm(alloc: Global) -> Result<Arm, NoMemory> {
    let arm = Arm {
        condition: column()?,
        answer: call(alloc)?,
    };
    arm.copy(alloc)
}

#[test]
fn lists_arms_and_operators_are_copied(rt: HostRuntime) {
    let alloc = rt.alloc();
    assert!(rt;
        matches!(
            arm(alloc),
            Ok(Arm {
                answer: Expr::Caveat { call: 7, .. },
                ..
            })
        )
    );
    match longer(alloc) {
        Ok(list) => match list.copy(alloc) {
            Ok(again) => assert_eq!(rt; again.len(), 10),
            Err(_) => assert!(rt; false, "no memory"),
        },
        Err(_) => assert!(rt; false, "no memory"),
    }
    assert!(rt; matches!(UnaryOp::Abs.copy(alloc), Ok(UnaryOp::Abs)));
    assert!(rt; matches!(BinaryOp::Concat.copy(alloc), Ok(BinaryOp::Concat)));
}
