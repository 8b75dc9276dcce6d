//! The table of all rules, and what it says at a token.
ghost use Rattle.std.specs.Prelude.{map};
ghost use Rattle.ll1_grammar.specs.Table.{entry};
ghost use Rattle.notebook_grammar.specs.Kinds.{code_of as code};
ghost use Rattle.notebook_grammar.specs.Rows.{shown, Shows};
ghost use Rattle.notebook_grammar.specs.Language as spec;

use crate::kind::{Kind, code_of};
use crate::row::{Entry, Part};
use crate::rule::Rule;
use crate::{expressions, scripts, selects};

/// The items of the first entry for a kind.
fn find(kind: Kind, entries: &'static [Entry]) -> Option<&'static [Part]>
    ensures { Shows result (entry (code kind) (map shown entries.now)) }
{
    for entry in entries {
        if code_of(kind) == code_of(entry.kind) {
            return Some(entry.items);
        }
    }
    None
}

/// What comes after a token of the kind, where the rule begins with it.
pub fn alternative(rule: Rule, kind: Kind) -> Option<&'static [Part]>
    ensures { Shows result (entry (code kind) (spec.alternatives rule)) }
{
    match rule {
        Rule::Expect(expected) => {
            if code_of(kind) == code_of(expected) {
                Some(&[])
            } else {
                None
            }
        }
        Rule::Expr(rule) => find(kind, expressions::alternatives(rule)),
        Rule::Select(rule) => find(kind, selects::alternatives(rule)),
        Rule::Script(rule) => find(kind, scripts::alternatives(rule)),
    }
}

/// The rule's right-hand side that begins with no token of its own.
pub fn otherwise(rule: Rule) -> Option<&'static [Part]>
    ensures { Shows result (spec.otherwise rule) }
{
    match rule {
        Rule::Expect(_) => None,
        Rule::Expr(rule) => expressions::otherwise(rule),
        Rule::Select(rule) => selects::otherwise(rule),
        Rule::Script(rule) => scripts::otherwise(rule),
    }
}
