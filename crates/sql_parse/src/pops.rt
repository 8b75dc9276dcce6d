//! Pieces of a SELECT, taken from the top.
ghost use Rattle.std.specs.Prelude.{◌≡◌, ◌∷◌};
ghost use Rattle.sql_parse.specs.Tops as spec;

use crate::columns::{ColumnNames, OrderKeys};
use crate::cores::{CoreItems, Cores};
use crate::piece::SelectPiece;
use crate::select::Select;
use crate::tables::{Joins, TableRef};
use expr_lang::Expr;
use expr_parse::{Piece, Pieces};

/// Whether DISTINCT stands there, on top.
pub fn pop_distinct(pieces: &mut Pieces<SelectPiece>) -> bool
    requires { spec.DistinctOn pieces.old }
    ensures { pieces.old ≡ Piece.Other (SelectPiece.Distinct result) ∷ pieces.new }
{
    match pieces.pop_other() {
        SelectPiece::Distinct(distinct) => distinct,
        _other => unreachable!(),
    }
}

/// The items, on top.
pub fn pop_items(pieces: &mut Pieces<SelectPiece>) -> CoreItems
    requires { spec.ItemsOn pieces.old }
    ensures { pieces.old ≡ Piece.Other (SelectPiece.Items result) ∷ pieces.new }
{
    match pieces.pop_other() {
        SelectPiece::Items(items) => items,
        _other => unreachable!(),
    }
}

/// The table, on top.
pub fn pop_table(pieces: &mut Pieces<SelectPiece>) -> TableRef
    requires { spec.TableOn pieces.old }
    ensures { pieces.old ≡ Piece.Other (SelectPiece.Table result) ∷ pieces.new }
{
    match pieces.pop_other() {
        SelectPiece::Table(table) => table,
        _other => unreachable!(),
    }
}

/// The joins, on top.
pub fn pop_joins(pieces: &mut Pieces<SelectPiece>) -> Joins
    requires { spec.JoinsOn pieces.old }
    ensures { pieces.old ≡ Piece.Other (SelectPiece.Joins result) ∷ pieces.new }
{
    match pieces.pop_other() {
        SelectPiece::Joins(joins) => joins,
        _other => unreachable!(),
    }
}

/// The condition, if there is one, on top.
pub fn pop_condition(pieces: &mut Pieces<SelectPiece>) -> Option<Expr>
    requires { spec.ConditionOn pieces.old }
    ensures { pieces.old ≡ Piece.Other (SelectPiece.Condition result) ∷ pieces.new }
{
    match pieces.pop_other() {
        SelectPiece::Condition(condition) => condition,
        _other => unreachable!(),
    }
}

/// The columns, on top.
pub fn pop_columns(pieces: &mut Pieces<SelectPiece>) -> ColumnNames
    requires { spec.ColumnsOn pieces.old }
    ensures { pieces.old ≡ Piece.Other (SelectPiece.Columns result) ∷ pieces.new }
{
    match pieces.pop_other() {
        SelectPiece::Columns(columns) => columns,
        _other => unreachable!(),
    }
}

/// The cores, on top.
pub fn pop_cores(pieces: &mut Pieces<SelectPiece>) -> Cores
    requires { spec.CoresOn pieces.old }
    ensures { pieces.old ≡ Piece.Other (SelectPiece.Cores result) ∷ pieces.new }
{
    match pieces.pop_other() {
        SelectPiece::Cores(cores) => cores,
        _other => unreachable!(),
    }
}

/// The keys, on top.
pub fn pop_keys(pieces: &mut Pieces<SelectPiece>) -> OrderKeys
    requires { spec.KeysOn pieces.old }
    ensures { pieces.old ≡ Piece.Other (SelectPiece.Keys result) ∷ pieces.new }
{
    match pieces.pop_other() {
        SelectPiece::Keys(keys) => keys,
        _other => unreachable!(),
    }
}

/// The number of LIMIT, if there is one, on top.
pub fn pop_limit(pieces: &mut Pieces<SelectPiece>) -> Option<u64>
    requires { spec.LimitOn pieces.old }
    ensures { pieces.old ≡ Piece.Other (SelectPiece.Limit result) ∷ pieces.new }
{
    match pieces.pop_other() {
        SelectPiece::Limit(limit) => limit,
        _other => unreachable!(),
    }
}

/// The SELECT, on top.
pub fn pop_select(pieces: &mut Pieces<SelectPiece>) -> Select
    requires { spec.SelectOn pieces.old }
    ensures { pieces.old ≡ Piece.Other (SelectPiece.Select result) ∷ pieces.new }
{
    match pieces.pop_other() {
        SelectPiece::Select(select) => select,
        _other => unreachable!(),
    }
}
