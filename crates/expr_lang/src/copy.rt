//! Trees, written again.
ghost use Rattle.std.specs.Prelude.{◌≡◌, IfOk};

use crate::expr::{Arm, Arms, Expr, Exprs};
use crate::ops::{BinaryOp, UnaryOp};
use sqlite_items::Boxed;
use std::alloc::Global;
use value_types::{Copied, ListOf, Name, NoMemory, Words};

impl UnaryOp {
    /// The same operator. It takes no memory.
    pub fn copy(&self, _alloc: Global) -> Result<UnaryOp, NoMemory>
        ensures { IfOk result (λ op. op ≡ self.now) }
    {
        Ok(*self)
    }
}

impl BinaryOp {
    /// The same operator. It takes no memory.
    pub fn copy(&self, _alloc: Global) -> Result<BinaryOp, NoMemory>
        ensures { IfOk result (λ op. op ≡ self.now) }
    {
        Ok(*self)
    }
}

impl Expr {
    /// An equal expression.
    pub fn copy(&self, alloc: Global) -> Result<Expr, NoMemory>
        ensures { IfOk result (λ e. e ≡ self.now) }
    {
        copy_expr(alloc, self)
    }
}

impl Copied for Expr {
    fn copied(&self, alloc: Global) -> Result<Expr, NoMemory> {
        self.copy(alloc)
    }
}

impl Arm {
    /// An equal arm.
    pub fn copy(&self, alloc: Global) -> Result<Arm, NoMemory>
        ensures { IfOk result (λ a. a ≡ self.now) }
    {
        Ok(Arm {
            condition: self.condition.copy(alloc)?,
            answer: self.answer.copy(alloc)?,
        })
    }
}

impl Copied for Arm {
    fn copied(&self, alloc: Global) -> Result<Arm, NoMemory> {
        self.copy(alloc)
    }
}

fn copy_qualifier(qualifier: &Option<Name>) -> Option<Name>
    ensures { result ≡ qualifier.now }
{
    match qualifier {
        None => None,
        Some(name) => Some(name.copy()),
    }
}

#[cycle(copy)]
fn copy_boxed(alloc: Global, of: &Expr) -> Result<Boxed<Expr>, NoMemory>
    ensures { IfOk result (λ e. e ≡ of.now) }
{
    Ok(Boxed::new(alloc, copy_expr(alloc, of)?)?)
}

#[cycle(copy)]
fn copy_list(alloc: Global, list: &[Expr]) -> Result<Exprs, NoMemory>
    ensures { IfOk result (λ es. es ≡ list.now) }
{
    let mut all = ListOf::new(alloc)?;
    for item in list {
        all.push(alloc, copy_expr(alloc, item)?)?;
    }
    Ok(all)
}

#[cycle(copy)]
fn copy_arms(alloc: Global, arms: &[Arm]) -> Result<Arms, NoMemory>
    ensures { IfOk result (λ all. all ≡ arms.now) }
{
    let mut all = ListOf::new(alloc)?;
    for arm in arms {
        let condition = copy_expr(alloc, &arm.condition)?;
        let answer = copy_expr(alloc, &arm.answer)?;
        all.push(alloc, Arm { condition, answer })?;
    }
    Ok(all)
}

#[cycle(copy)]
fn copy_like(alloc: Global, of: &Expr, pattern: &Expr, negated: bool) -> Result<Expr, NoMemory>
    ensures { IfOk result (λ e. e ≡ Expr.Like of.now pattern.now negated) }
{
    Ok(Expr::Like {
        of: copy_boxed(alloc, of)?,
        pattern: copy_boxed(alloc, pattern)?,
        negated,
    })
}

#[cycle(copy)]
fn copy_one_of(alloc: Global, list: &[Expr], of: &Expr, negated: bool) -> Result<Expr, NoMemory>
    ensures { IfOk result (λ e. e ≡ Expr.OneOf of.now list.now negated) }
{
    Ok(Expr::OneOf {
        of: copy_boxed(alloc, of)?,
        list: copy_list(alloc, list)?,
        negated,
    })
}

#[cycle(copy)]
fn copy_case(alloc: Global, arms: &[Arm], otherwise: &Option<Boxed<Expr>>) -> Result<Expr, NoMemory>
    ensures { IfOk result (λ e. e ≡ Expr.Case arms.now otherwise.now) }
{
    let arms = copy_arms(alloc, arms)?;
    match otherwise {
        None => Ok(Expr::Case {
            arms,
            otherwise: None,
        }),
        Some(other) => Ok(Expr::Case {
            arms,
            otherwise: Some(copy_boxed(alloc, other.get())?),
        }),
    }
}

#[cycle(copy)]
fn copy_caveat(alloc: Global, of: &Expr, message: &Words, call: u32) -> Result<Expr, NoMemory>
    ensures { IfOk result (λ e. e ≡ Expr.Caveat of.now message.now call) }
{
    Ok(Expr::Caveat {
        of: copy_boxed(alloc, of)?,
        message: message.copy(alloc)?,
        call,
    })
}

#[cycle(copy)]
fn copy_expr(alloc: Global, expr: &Expr) -> Result<Expr, NoMemory>
    ensures { IfOk result (λ e. e ≡ expr.now) }
{
    match expr {
        Expr::Literal(value) => Ok(Expr::Literal(value.copy(alloc)?)),
        Expr::Column { qualifier, name } => Ok(Expr::Column {
            qualifier: copy_qualifier(qualifier),
            name: name.copy(),
        }),
        Expr::Unary(op, of) => Ok(Expr::Unary(*op, copy_boxed(alloc, of.get())?)),
        Expr::Binary(op, a, b) => {
            let left = copy_boxed(alloc, a.get())?;
            Ok(Expr::Binary(*op, left, copy_boxed(alloc, b.get())?))
        }
        Expr::IsNull { of, negated } => Ok(Expr::IsNull {
            of: copy_boxed(alloc, of.get())?,
            negated: *negated,
        }),
        Expr::Like {
            of,
            pattern,
            negated,
        } => copy_like(alloc, of.get(), pattern.get(), *negated),
        Expr::OneOf { of, list, negated } => {
            copy_one_of(alloc, list.as_slice(), of.get(), *negated)
        }
        Expr::Case { arms, otherwise } => copy_case(alloc, arms.as_slice(), otherwise),
        Expr::Coalesce(list) => Ok(Expr::Coalesce(copy_list(alloc, list.as_slice())?)),
        Expr::Cast { of, kind } => Ok(Expr::Cast {
            of: copy_boxed(alloc, of.get())?,
            kind: *kind,
        }),
        Expr::Caveat { of, message, call } => copy_caveat(alloc, of.get(), message, *call),
        Expr::CountAll => Ok(Expr::CountAll),
        Expr::Count(of) => Ok(Expr::Count(copy_boxed(alloc, of.get())?)),
        Expr::Sum(of) => Ok(Expr::Sum(copy_boxed(alloc, of.get())?)),
        Expr::Min(of) => Ok(Expr::Min(copy_boxed(alloc, of.get())?)),
        Expr::Max(of) => Ok(Expr::Max(copy_boxed(alloc, of.get())?)),
    }
}
