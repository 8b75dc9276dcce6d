//! How the tables of rules are written.
use crate::action::Action;
use crate::kind::Kind;
use crate::rule::Rule;
use ll1_grammar::Item;

/// A part of a right-hand side.
pub type Part = Item<Rule, Action>;

/// An alternative of a rule: what comes after a token of the kind.
#[derive(Clone, Copy, Drop)]
pub struct Entry {
    pub kind: Kind,
    pub items: &'static [Part],
}

/// One item. `expr X` is a rule of expressions at this depth, `expr_in X` one level further in and
/// `expr_do X` an action; so for the other languages. `token X` is a token of the kind X.
macro_rules! item {
    (token $k:ident) => { Item::Here(Rule::Expect(Kind::$k)) };
    (expr $r:ident) => { Item::Here(Rule::Expr(ExprRule::$r)) };
    (expr_in $r:ident) => { Item::Inside(Rule::Expr(ExprRule::$r)) };
    (expr_do $a:ident) => { Item::Do(Action::Expr(ExprAction::$a)) };
    (select $r:ident) => { Item::Here(Rule::Select(SelectRule::$r)) };
    (select_do $a:ident) => { Item::Do(Action::Select(SelectAction::$a)) };
    (script $r:ident) => { Item::Here(Rule::Script(ScriptRule::$r)) };
    (script_in $r:ident) => { Item::Inside(Rule::Script(ScriptRule::$r)) };
    (script_do $a:ident) => { Item::Do(Action::Script(ScriptAction::$a)) };
}

/// A right-hand side without its token.
macro_rules! items {
    ($($how:ident $what:ident),*) => { &[$($crate::row::item!($how $what)),*] };
}

/// The alternatives of a rule, each by its token.
macro_rules! entries {
    ($($kind:ident [$($how:ident $what:ident),*])*) => {
        &[$(Entry { kind: Kind::$kind, items: &[$($crate::row::item!($how $what)),*] }),*]
    };
}

pub(crate) use entries;
pub(crate) use item;
pub(crate) use items;
