//! What a text may be as a whole.
ghost use Rattle.std.specs.Prelude.{◌≡◌, [], ◌∷◌};
ghost use Rattle.ll1_grammar.specs.declared.item.Item.TheVariants.{Here};
ghost use Rattle.notebook_grammar.specs.Language.{rule_of};

use crate::row::Part;
use crate::rule::{ExprRule, Rule, ScriptRule, SelectRule};
use ll1_grammar::Item;

/// What a text is as a whole.
#[derive(Clone, Copy, Drop, Debug)]
pub enum Start {
    Expression,
    Select,
    Script,
}

/// The rule of a whole text.
pub fn first(start: Start) -> &'static [Part]
    ensures { result.now ≡ Here (rule_of start) ∷ [] }
{
    match start {
        Start::Expression => &[Item::Here(Rule::Expr(ExprRule::Outermost))],
        Start::Select => &[Item::Here(Rule::Select(SelectRule::Select))],
        Start::Script => &[Item::Here(Rule::Script(ScriptRule::Script))],
    }
}
