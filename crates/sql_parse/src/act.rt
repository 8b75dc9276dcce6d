//! What each action of SELECT makes of the pieces.
ghost use Rattle.std.specs.Prelude.{◌≡◌, ◌∷◌, OnOk, IfOk};
ghost use Rattle.expr_parse.specs.Tops.{Goes};
ghost use Rattle.sql_parse.specs.Pieces as spec;

use crate::columns::{ColumnName, OrderKey};
use crate::cores::{Core, CoreItems, ItemText};
use crate::piece::SelectPiece;
use crate::pops::{
    pop_columns, pop_condition, pop_cores, pop_distinct, pop_items, pop_joins, pop_keys, pop_limit,
    pop_table,
};
use crate::select::Select;
use crate::tables::{JoinPart, TableRef};
use expr_lang::Expr;
use expr_parse::{Piece, Pieces};
use notebook_grammar::SelectAction;
use std::alloc::Global;
use value_types::{ListOf, Name, NoMemory};

fn put(pieces: &mut Pieces<SelectPiece>, piece: SelectPiece) -> Result<(), NoMemory>
    ensures { OnOk result (spec.put piece pieces.old ≡ Some pieces.new) }
{
    pieces.push(Piece::Other(piece))
}

fn end_select(pieces: &mut Pieces<SelectPiece>) -> Result<(), NoMemory>
    requires { Goes (spec.did SelectAction.Select pieces.old) }
    ensures { OnOk result (spec.did SelectAction.Select pieces.old ≡ Some pieces.new) }
{
    let limit = pop_limit(pieces);
    let order = pop_keys(pieces);
    let cores = pop_cores(pieces);
    put(
        pieces,
        SelectPiece::Select(Select {
            cores,
            order,
            limit,
        }),
    )
}

fn end_core(alloc: Global, pieces: &mut Pieces<SelectPiece>) -> Result<(), NoMemory>
    requires { Goes (spec.did SelectAction.Core pieces.old) }
    ensures { OnOk result (spec.did SelectAction.Core pieces.old ≡ Some pieces.new) }
{
    let having = pop_condition(pieces);
    let group_by = pop_columns(pieces);
    let condition = pop_condition(pieces);
    let joins = pop_joins(pieces);
    let table = pop_table(pieces);
    let items = pop_items(pieces);
    let distinct = pop_distinct(pieces);
    let mut cores = pop_cores(pieces);
    let core = Core {
        distinct,
        items,
        table,
        joins,
        condition,
        group_by,
        having,
    };
    cores.push(alloc, core)?;
    put(pieces, SelectPiece::Cores(cores))
}

/// The items with one more, the last; `*` lists none.
fn item(
    alloc: Global,
    items: CoreItems,
    expr: Expr,
    name: Option<Name>,
) -> Result<CoreItems, NoMemory>
    ensures { IfOk result (λ is. is ≡ spec.item expr name items) }
{
    let mut listed = match items {
        CoreItems::All => ListOf::new(alloc)?,
        CoreItems::Listed(listed) => listed,
    };
    listed.push(alloc, ItemText { expr, name })?;
    Ok(CoreItems::Listed(listed))
}

fn named_item(alloc: Global, pieces: &mut Pieces<SelectPiece>) -> Result<(), NoMemory>
    requires { Goes (spec.did SelectAction.NamedItem pieces.old) }
    ensures { OnOk result (spec.did SelectAction.NamedItem pieces.old ≡ Some pieces.new) }
{
    let name = Some(pieces.pop_name());
    let expr = pieces.pop_tree();
    let items = item(alloc, pop_items(pieces), expr, name)?;
    put(pieces, SelectPiece::Items(items))
}

fn plain_item(alloc: Global, pieces: &mut Pieces<SelectPiece>) -> Result<(), NoMemory>
    requires { Goes (spec.did SelectAction.PlainItem pieces.old) }
    ensures { OnOk result (spec.did SelectAction.PlainItem pieces.old ≡ Some pieces.new) }
{
    let expr = pieces.pop_tree();
    let items = item(alloc, pop_items(pieces), expr, None)?;
    put(pieces, SelectPiece::Items(items))
}

fn named_table(pieces: &mut Pieces<SelectPiece>) -> Result<(), NoMemory>
    requires { Goes (spec.did SelectAction.NamedTable pieces.old) }
    ensures { OnOk result (spec.did SelectAction.NamedTable pieces.old ≡ Some pieces.new) }
{
    let qualifier = pieces.pop_name();
    let dataset = pieces.pop_name();
    put(pieces, SelectPiece::Table(TableRef { dataset, qualifier }))
}

fn plain_table(pieces: &mut Pieces<SelectPiece>) -> Result<(), NoMemory>
    requires { Goes (spec.did SelectAction.PlainTable pieces.old) }
    ensures { OnOk result (spec.did SelectAction.PlainTable pieces.old ≡ Some pieces.new) }
{
    let dataset = pieces.pop_name();
    let qualifier = dataset.copy();
    put(pieces, SelectPiece::Table(TableRef { dataset, qualifier }))
}

fn join(alloc: Global, pieces: &mut Pieces<SelectPiece>, left: bool) -> Result<(), NoMemory>
    requires { Goes (spec.join left pieces.old) }
    ensures { OnOk result (spec.join left pieces.old ≡ Some pieces.new) }
{
    let on = pieces.pop_tree();
    let table = pop_table(pieces);
    let mut joins = pop_joins(pieces);
    joins.push(alloc, JoinPart { left, table, on })?;
    put(pieces, SelectPiece::Joins(joins))
}

fn condition(pieces: &mut Pieces<SelectPiece>) -> Result<(), NoMemory>
    requires { Goes (spec.did SelectAction.Condition pieces.old) }
    ensures { OnOk result (spec.did SelectAction.Condition pieces.old ≡ Some pieces.new) }
{
    let condition = pieces.pop_tree();
    put(pieces, SelectPiece::Condition(Some(condition)))
}

fn qualified_column(alloc: Global, pieces: &mut Pieces<SelectPiece>) -> Result<(), NoMemory>
    requires { Goes (spec.did SelectAction.QualifiedColumn pieces.old) }
    ensures { OnOk result (spec.did SelectAction.QualifiedColumn pieces.old ≡ Some pieces.new) }
{
    let name = pieces.pop_name();
    let qualifier = Some(pieces.pop_name());
    let mut columns = pop_columns(pieces);
    columns.push(alloc, ColumnName { qualifier, name })?;
    put(pieces, SelectPiece::Columns(columns))
}

fn bare_column(alloc: Global, pieces: &mut Pieces<SelectPiece>) -> Result<(), NoMemory>
    requires { Goes (spec.did SelectAction.BareColumn pieces.old) }
    ensures { OnOk result (spec.did SelectAction.BareColumn pieces.old ≡ Some pieces.new) }
{
    let name = pieces.pop_name();
    let mut columns = pop_columns(pieces);
    let qualifier = None;
    columns.push(alloc, ColumnName { qualifier, name })?;
    put(pieces, SelectPiece::Columns(columns))
}

fn key(alloc: Global, pieces: &mut Pieces<SelectPiece>, descending: bool) -> Result<(), NoMemory>
    requires { Goes (spec.key descending pieces.old) }
    ensures { OnOk result (spec.key descending pieces.old ≡ Some pieces.new) }
{
    let name = pieces.pop_name();
    let mut keys = pop_keys(pieces);
    keys.push(alloc, OrderKey { name, descending })?;
    put(pieces, SelectPiece::Keys(keys))
}

fn limit(pieces: &mut Pieces<SelectPiece>) -> Result<(), NoMemory>
    requires { Goes (spec.did SelectAction.Limit pieces.old) }
    ensures { OnOk result (spec.did SelectAction.Limit pieces.old ≡ Some pieces.new) }
{
    // The token has no sign, so that nothing is lost.
    let rows = pieces.pop_whole().unsigned_abs();
    put(pieces, SelectPiece::Limit(Some(rows)))
}

/// Does one action to the pieces.
pub fn act_on_select(
    alloc: Global,
    pieces: &mut Pieces<SelectPiece>,
    action: SelectAction,
) -> Result<(), NoMemory>
    requires { Goes (spec.did action pieces.old) }
    ensures { OnOk result (spec.did action pieces.old ≡ Some pieces.new) }
{
    match action {
        SelectAction::BeginCores => put(pieces, SelectPiece::Cores(ListOf::new(alloc)?)),
        SelectAction::Select => end_select(pieces),
        SelectAction::BeginJoins => put(pieces, SelectPiece::Joins(ListOf::new(alloc)?)),
        SelectAction::Core => end_core(alloc, pieces),
        SelectAction::Distinct => put(pieces, SelectPiece::Distinct(true)),
        SelectAction::NotDistinct => put(pieces, SelectPiece::Distinct(false)),
        SelectAction::AllItems => put(pieces, SelectPiece::Items(CoreItems::All)),
        SelectAction::BeginItems => {
            let none = ListOf::new(alloc)?;
            put(pieces, SelectPiece::Items(CoreItems::Listed(none)))
        }
        SelectAction::NamedItem => named_item(alloc, pieces),
        SelectAction::PlainItem => plain_item(alloc, pieces),
        SelectAction::NamedTable => named_table(pieces),
        SelectAction::PlainTable => plain_table(pieces),
        SelectAction::InnerJoin => join(alloc, pieces, false),
        SelectAction::LeftJoin => join(alloc, pieces, true),
        SelectAction::Condition => condition(pieces),
        SelectAction::NoCondition => put(pieces, SelectPiece::Condition(None)),
        SelectAction::BeginColumns => put(pieces, SelectPiece::Columns(ListOf::new(alloc)?)),
        SelectAction::QualifiedColumn => qualified_column(alloc, pieces),
        SelectAction::BareColumn => bare_column(alloc, pieces),
        SelectAction::BeginKeys => put(pieces, SelectPiece::Keys(ListOf::new(alloc)?)),
        SelectAction::Ascending => key(alloc, pieces, false),
        SelectAction::Descending => key(alloc, pieces, true),
        SelectAction::Limit => limit(pieces),
        SelectAction::NoLimit => put(pieces, SelectPiece::Limit(None)),
    }
}
