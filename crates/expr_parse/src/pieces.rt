//! The pieces of a tree, one on top of another.
ghost use Rattle.std.specs.Prelude.{◌≡◌, [], ◌∷◌, OnOk};
ghost use Rattle.expr_parse.specs.Tops as spec;

use crate::piece::Piece;
use expr_lang::{Arms, Expr, Exprs};
use std::alloc::Global;
use std::marker::Model;
use value_types::{ColumnType, Name, NoMemory, Words};

/// A stack of pieces, which contracts see as their list, the topmost first.
#[derive(Drop)]
pub struct Pieces<M> {
    stack: Vec<Piece<M>>,
}

impl<M> Model for Pieces<M> {
    ghost use Rattle.std.specs.Prelude.{List, reverse};
    ghost use Rattle.std.specs.Coded.{codes};
    ghost use Rattle.expr_lang.specs.contracts.expr.Expr as expr;
    ghost use Rattle.expr_lang.specs.contracts.expr.Arm as arm;
    ghost use Rattle.expr_parse.specs.declared.piece.Piece.{Piece};

    ghost Value = { List (Piece M) };

    ghost coded = { Prim.hlevel (codes, expr.the_row.coded, arm.the_row.coded, M.code) };

    ghost view = { λ p. reverse p.stack.items };
}

impl<M: Drop> Pieces<M> {
    /// No pieces, which take no memory.
    pub fn new(alloc: Global) -> Pieces<M>
        ensures { result ≡ [] }
    {
        Pieces {
            stack: Vec::new(alloc),
        }
    }

    /// One piece more, on top.
    pub fn push(&mut self, piece: Piece<M>) -> Result<(), NoMemory>
        ensures { OnOk result (self.new ≡ piece ∷ self.old) }
    {
        self.stack.push(piece)?;
        Ok(())
    }

    /// The name on top.
    pub fn pop_name(&mut self) -> Name
        requires { spec.NameOn self.old }
        ensures { self.old ≡ Piece.Name result ∷ self.new }
    {
        match self.stack.pop() {
            Some(piece) => match piece {
                Piece::Name(name) => name,
                _other => unreachable!(),
            },
            None => unreachable!(),
        }
    }

    /// The type on top.
    pub fn pop_type(&mut self) -> ColumnType
        requires { spec.TypeOn self.old }
        ensures { self.old ≡ Piece.TypeWord result ∷ self.new }
    {
        match self.stack.pop() {
            Some(Piece::TypeWord(kind)) => kind,
            _other => unreachable!(),
        }
    }

    /// The number without a point on top.
    pub fn pop_whole(&mut self) -> i64
        requires { spec.WholeOn self.old }
        ensures { self.old ≡ Piece.Whole result ∷ self.new }
    {
        match self.stack.pop() {
            Some(Piece::Whole(n)) => n,
            _other => unreachable!(),
        }
    }

    /// The number with a point on top, in ten-thousandths.
    pub fn pop_decimal(&mut self) -> i64
        requires { spec.DecimalOn self.old }
        ensures { self.old ≡ Piece.Decimal result ∷ self.new }
    {
        match self.stack.pop() {
            Some(Piece::Decimal(n)) => n,
            _other => unreachable!(),
        }
    }

    /// The text on top.
    pub fn pop_quoted(&mut self) -> Words
        requires { spec.QuotedOn self.old }
        ensures { self.old ≡ Piece.Quoted result ∷ self.new }
    {
        match self.stack.pop() {
            Some(Piece::Quoted(text)) => text,
            _other => unreachable!(),
        }
    }

    /// The number of a CAVEAT on top.
    pub fn pop_call(&mut self) -> u32
        requires { spec.CallOn self.old }
        ensures { self.old ≡ Piece.Call result ∷ self.new }
    {
        match self.stack.pop() {
            Some(Piece::Call(call)) => call,
            _other => unreachable!(),
        }
    }

    /// The expression on top.
    pub fn pop_tree(&mut self) -> Expr
        requires { spec.TreeOn self.old }
        ensures { self.old ≡ Piece.Tree result ∷ self.new }
    {
        match self.stack.pop() {
            Some(Piece::Tree(expr)) => expr,
            _other => unreachable!(),
        }
    }

    /// The expressions on top.
    pub fn pop_list(&mut self) -> Exprs
        requires { spec.ListOn self.old }
        ensures { self.old ≡ Piece.List result ∷ self.new }
    {
        match self.stack.pop() {
            Some(Piece::List(list)) => list,
            _other => unreachable!(),
        }
    }

    /// The arms on top.
    pub fn pop_arms(&mut self) -> Arms
        requires { spec.ArmsOn self.old }
        ensures { self.old ≡ Piece.Arms result ∷ self.new }
    {
        match self.stack.pop() {
            Some(Piece::Arms(arms)) => arms,
            _other => unreachable!(),
        }
    }

    /// The piece of the language around, on top.
    pub fn pop_other(&mut self) -> M
        requires { spec.OtherOn self.old }
        ensures { self.old ≡ Piece.Other result ∷ self.new }
    {
        match self.stack.pop() {
            Some(Piece::Other(piece)) => piece,
            _other => unreachable!(),
        }
    }
}
