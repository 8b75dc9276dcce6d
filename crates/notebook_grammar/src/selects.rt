//! The table of SELECT. `specs/Selects.antt` has it in the usual notation too.
ghost use Rattle.std.specs.Prelude.{◌≡◌, map};
ghost use Rattle.notebook_grammar.specs.Rows.{shown, Shows};
ghost use Rattle.notebook_grammar.specs.Selects as spec;

use crate::action::{Action, ExprAction, SelectAction};
use crate::kind::Kind;
use crate::row::{Entry, Part, entries, items};
use crate::rule::{ExprRule, Rule, SelectRule};
use ll1_grammar::Item;

const CORE: &[Entry] = entries![
    Select [select Distinct, select Items, token From, select Table, select_do BeginJoins, select ThreeJoins, select Where, select GroupBy, select Having, select_do Core]
];

const THREE_UNIONS: &[Entry] = entries![
    Union [token All, select Core, select TwoUnions]
];

const TWO_UNIONS: &[Entry] = entries![
    Union [token All, select Core, select OneUnion]
];

const ONE_UNION: &[Entry] = entries![
    Union [token All, select Core]
];

const DISTINCT: &[Entry] = entries![
    Distinct [select_do Distinct]
];

const ITEMS: &[Entry] = entries![
    Star [select_do AllItems]
];

const ITEM_NAME: &[Entry] = entries![
    As [expr Name, select_do NamedItem]
];

const ITEMS_TAIL: &[Entry] = entries![
    Comma [select Item, select ItemsTail]
];

const TABLE_NAME: &[Entry] = entries![
    As [expr Name, select_do NamedTable]
    Name [select_do NamedTable]
    TypeWord [expr_do TypeAsName, select_do NamedTable]
];

const THREE_JOINS: &[Entry] = entries![
    Inner [token Join, select Join, select_do InnerJoin, select TwoJoins]
    Join [select Join, select_do InnerJoin, select TwoJoins]
    Left [select LeftTail, select Join, select_do LeftJoin, select TwoJoins]
];

const TWO_JOINS: &[Entry] = entries![
    Inner [token Join, select Join, select_do InnerJoin, select OneJoin]
    Join [select Join, select_do InnerJoin, select OneJoin]
    Left [select LeftTail, select Join, select_do LeftJoin, select OneJoin]
];

const ONE_JOIN: &[Entry] = entries![
    Inner [token Join, select Join, select_do InnerJoin]
    Join [select Join, select_do InnerJoin]
    Left [select LeftTail, select Join, select_do LeftJoin]
];

const LEFT_TAIL: &[Entry] = entries![
    Outer [token Join]
    Join []
];

const WHERE: &[Entry] = entries![
    Where [expr Outermost, select_do Condition]
];

const GROUP_BY: &[Entry] = entries![
    Group [token By, select_do BeginColumns, select Column, select ColumnsTail]
];

const COLUMN_TAIL: &[Entry] = entries![
    Point [expr Name, select_do QualifiedColumn]
];

const COLUMNS_TAIL: &[Entry] = entries![
    Comma [select Column, select ColumnsTail]
];

const HAVING: &[Entry] = entries![
    Having [expr Outermost, select_do Condition]
];

const ORDER_BY: &[Entry] = entries![
    Order [token By, select_do BeginKeys, select Key, select KeysTail]
];

const DIRECTION: &[Entry] = entries![
    Asc [select_do Ascending]
    Desc [select_do Descending]
];

const KEYS_TAIL: &[Entry] = entries![
    Comma [select Key, select KeysTail]
];

const LIMIT: &[Entry] = entries![
    Limit [token Whole, select_do Limit]
];

const END: &[Entry] = entries![
    Semicolon []
];

/// What comes after the first token of the rule, by the kind of the token.
pub fn alternatives(rule: SelectRule) -> &'static [Entry]
    ensures { map shown result.now ≡ spec.alternatives rule }
{
    match rule {
        SelectRule::Core => CORE,
        SelectRule::ThreeUnions => THREE_UNIONS,
        SelectRule::TwoUnions => TWO_UNIONS,
        SelectRule::OneUnion => ONE_UNION,
        SelectRule::Distinct => DISTINCT,
        SelectRule::Items => ITEMS,
        SelectRule::ItemName => ITEM_NAME,
        SelectRule::ItemsTail => ITEMS_TAIL,
        SelectRule::TableName => TABLE_NAME,
        SelectRule::ThreeJoins => THREE_JOINS,
        SelectRule::TwoJoins => TWO_JOINS,
        SelectRule::OneJoin => ONE_JOIN,
        SelectRule::LeftTail => LEFT_TAIL,
        SelectRule::Where => WHERE,
        SelectRule::GroupBy => GROUP_BY,
        SelectRule::ColumnTail => COLUMN_TAIL,
        SelectRule::ColumnsTail => COLUMNS_TAIL,
        SelectRule::Having => HAVING,
        SelectRule::OrderBy => ORDER_BY,
        SelectRule::Direction => DIRECTION,
        SelectRule::KeysTail => KEYS_TAIL,
        SelectRule::Limit => LIMIT,
        SelectRule::End => END,
        _ => &[],
    }
}

/// The rule's right-hand side that begins with no token of its own.
pub fn otherwise(rule: SelectRule) -> Option<&'static [Part]>
    ensures { Shows result (spec.otherwise rule) }
{
    match rule {
        SelectRule::Select => Some(
            items![select_do BeginCores, select Core, select ThreeUnions, select OrderBy, select Limit, select End, select_do Select],
        ),
        SelectRule::Distinct => Some(items![select_do NotDistinct]),
        SelectRule::Items => Some(items![select_do BeginItems, select Item, select ItemsTail]),
        SelectRule::Item => Some(items![expr Outermost, select ItemName]),
        SelectRule::ItemName => Some(items![select_do PlainItem]),
        SelectRule::Table => Some(items![expr Name, select TableName]),
        SelectRule::TableName => Some(items![select_do PlainTable]),
        SelectRule::Join => Some(items![select Table, token On, expr Outermost]),
        SelectRule::Where => Some(items![select_do NoCondition]),
        SelectRule::GroupBy => Some(items![select_do BeginColumns]),
        SelectRule::Column => Some(items![expr Name, select ColumnTail]),
        SelectRule::ColumnTail => Some(items![select_do BareColumn]),
        SelectRule::Having => Some(items![select_do NoCondition]),
        SelectRule::OrderBy => Some(items![select_do BeginKeys]),
        SelectRule::Key => Some(items![expr Name, select Direction]),
        SelectRule::Direction => Some(items![select_do Ascending]),
        SelectRule::Limit => Some(items![select_do NoLimit]),
        SelectRule::ThreeUnions
        | SelectRule::TwoUnions
        | SelectRule::OneUnion
        | SelectRule::ItemsTail
        | SelectRule::ThreeJoins
        | SelectRule::TwoJoins
        | SelectRule::OneJoin
        | SelectRule::ColumnsTail
        | SelectRule::KeysTail
        | SelectRule::End => Some(&[]),
        _ => None,
    }
}
