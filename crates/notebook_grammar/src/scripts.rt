//! The table of scripts. `specs/Scripts.antt` has it in the usual notation too.
ghost use Rattle.std.specs.Prelude.{◌≡◌, map};
ghost use Rattle.notebook_grammar.specs.Rows.{shown, Shows};
ghost use Rattle.notebook_grammar.specs.Scripts as spec;

use crate::action::{Action, ExprAction, ScriptAction};
use crate::kind::Kind;
use crate::row::{Entry, Part, entries, items};
use crate::rule::{ExprRule, Rule, ScriptRule};
use ll1_grammar::Item;

const BUILDERS: &[Entry] = entries![
    Table [expr Name, token Open, script_do BeginColumns, script Column, script ColumnsTail, token Close, token Semicolon, script_do Builder, script Builders]
];

const COLUMNS_TAIL: &[Entry] = entries![
    Comma [script Column, script ColumnsTail]
];

const STATEMENTS: &[Entry] = entries![
    Name [script Assigned, script Statements]
    TypeWord [expr_do TypeAsName, script Assigned, script Statements]
    Print [expr Outermost, token Semicolon, script_do Print, script Statements]
    If [expr Outermost, script_in Block, script_in Else, script Statements]
    While [expr Outermost, script_in Block, script_do While, script Statements]
    For [expr Name, script Loop, script_in Block, script_do For, script Statements]
    Emit [expr Name, token Open, script_in Values, token Close, token Semicolon, script_do Emit, script Statements]
    Write [expr Name, token As, expr Name, token Semicolon, script_do Write, script Statements]
    Drop [expr Name, token Semicolon, script_do Drop, script Statements]
];

const ASSIGNED: &[Entry] = entries![
    Equal [script Source, token Semicolon]
];

const SOURCE: &[Entry] = entries![
    Exists [expr Outermost, script_do Exists]
    Rows [expr Outermost, script_do Rows]
];

const BLOCK: &[Entry] = entries![
    OpenBrace [script_do BeginBlock, script Statements, token CloseBrace]
];

const ELSE: &[Entry] = entries![
    Else [script Block, script_do IfElse]
];

const LOOP: &[Entry] = entries![
    In [script Target]
    Equal [expr Outermost, token To, expr Outermost, script_do Range]
];

const TARGET: &[Entry] = entries![
    Name [script_do Named]
    TypeWord [expr_do TypeAsName, script_do Named]
    Open [expr_in Outermost, token Close, script_do Computed]
];

const VALUES_TAIL: &[Entry] = entries![
    Comma [expr Outermost, expr_do Entry, script ValuesTail]
];

/// What comes after the first token of the rule, by the kind of the token.
pub fn alternatives(rule: ScriptRule) -> &'static [Entry]
    ensures { map shown result.now ≡ spec.alternatives rule }
{
    match rule {
        ScriptRule::Builders => BUILDERS,
        ScriptRule::ColumnsTail => COLUMNS_TAIL,
        ScriptRule::Statements => STATEMENTS,
        ScriptRule::Assigned => ASSIGNED,
        ScriptRule::Source => SOURCE,
        ScriptRule::Block => BLOCK,
        ScriptRule::Else => ELSE,
        ScriptRule::Loop => LOOP,
        ScriptRule::Target => TARGET,
        ScriptRule::ValuesTail => VALUES_TAIL,
        _ => &[],
    }
}

/// The rule's right-hand side that begins with no token of its own.
pub fn otherwise(rule: ScriptRule) -> Option<&'static [Part]>
    ensures { Shows result (spec.otherwise rule) }
{
    match rule {
        ScriptRule::Script => Some(
            items![script_do BeginBuilders, script Builders, script_do BeginBlock, script Statements, script_do Script],
        ),
        ScriptRule::Column => Some(items![expr Name, token TypeWord, script_do Column]),
        ScriptRule::Source => Some(items![expr Outermost, script_do Assign]),
        ScriptRule::Else => Some(items![script_do If]),
        ScriptRule::Values => Some(
            items![expr_do BeginList, expr Outermost, expr_do Entry, script ValuesTail],
        ),
        ScriptRule::Builders
        | ScriptRule::ColumnsTail
        | ScriptRule::Statements
        | ScriptRule::ValuesTail => Some(&[]),
        _ => None,
    }
}
