//! The table of expressions. `specs/Expressions.antt` has it in the usual notation too.
ghost use Rattle.std.specs.Prelude.{◌≡◌, map};
ghost use Rattle.notebook_grammar.specs.Rows.{shown, Shows};
ghost use Rattle.notebook_grammar.specs.Expressions as spec;

use crate::action::{Action, ExprAction};
use crate::kind::Kind;
use crate::row::{Entry, Part, entries, items};
use crate::rule::{ExprRule, Rule};
use ll1_grammar::Item;

const OR_TAIL: &[Entry] = entries![
    Or [expr And, expr_do Or, expr OrTail]
];

const AND_TAIL: &[Entry] = entries![
    And [expr Not, expr_do And, expr AndTail]
];

const NOT: &[Entry] = entries![
    Not [expr_in Not, expr_do Not]
];

const COMPARISON_TAIL: &[Entry] = entries![
    Equal [expr Joined, expr_do Equal]
    NotEqual [expr Joined, expr_do NotEqual]
    Less [expr Joined, expr_do Less]
    AtMost [expr Joined, expr_do AtMost]
    Greater [expr Joined, expr_do Greater]
    AtLeast [expr Joined, expr_do AtLeast]
    Is [expr IsTail]
    Not [expr NotTail]
    Like [expr Joined, expr_do Like]
    In [token Open, expr_in List, token Close, expr_do In]
];

const IS_TAIL: &[Entry] = entries![
    Null [expr_do IsNull]
    Not [token Null, expr_do IsNotNull]
];

const NOT_TAIL: &[Entry] = entries![
    Like [expr Joined, expr_do NotLike]
    In [token Open, expr_in List, token Close, expr_do NotIn]
];

const JOINED_TAIL: &[Entry] = entries![
    Bars [expr Sum, expr_do Concat, expr JoinedTail]
];

const SUM_TAIL: &[Entry] = entries![
    Plus [expr Product, expr_do Add, expr SumTail]
    Minus [expr Product, expr_do Subtract, expr SumTail]
];

const PRODUCT_TAIL: &[Entry] = entries![
    Star [expr Signed, expr_do Multiply, expr ProductTail]
    Slash [expr Signed, expr_do Divide, expr ProductTail]
    Percent [expr Signed, expr_do Remainder, expr ProductTail]
];

const SIGNED: &[Entry] = entries![
    Minus [expr_in Signed, expr_do Minus]
];

const ATOM: &[Entry] = entries![
    Name [expr NameTail]
    TypeWord [expr_do TypeAsName, expr NameTail]
    Whole [expr_do Whole]
    Decimal [expr_do Decimal]
    Quoted [expr_do Quoted]
    True [expr_do True]
    False [expr_do False]
    Null [expr_do Null]
    Open [expr_in Or, token Close]
    Case [expr_do BeginArms, expr_in Arm, expr_in ArmsTail, expr_in CaseTail]
    Coalesce [token Open, expr_in List, token Close, expr_do Coalesce]
    Cast [token Open, expr_in Or, token As, token TypeWord, token Close, expr_do Cast]
    Caveat [token Open, expr_in Or, token Comma, token Quoted, token Close, expr_do Caveat]
    Length [token Open, expr_in Or, token Close, expr_do Length]
    Trim [token Open, expr_in Or, token Close, expr_do Trim]
    Abs [token Open, expr_in Or, token Close, expr_do Abs]
    Count [token Open, expr_in CountTail, token Close]
    Sum [token Open, expr_in Or, token Close, expr_do Sum]
    Min [token Open, expr_in Or, token Close, expr_do Min]
    Max [token Open, expr_in Or, token Close, expr_do Max]
];

const NAME_TAIL: &[Entry] = entries![
    Point [expr Name, expr_do Qualified]
];

const NAME: &[Entry] = entries![
    Name []
    TypeWord [expr_do TypeAsName]
];

const LIST_TAIL: &[Entry] = entries![
    Comma [expr Or, expr_do Entry, expr ListTail]
];

const ARM: &[Entry] = entries![
    When [expr Or, token Then, expr Or, expr_do Arm]
];

const ARMS_TAIL: &[Entry] = entries![
    When [expr Or, token Then, expr Or, expr_do Arm, expr ArmsTail]
];

const CASE_TAIL: &[Entry] = entries![
    Else [expr Or, token End, expr_do CaseElse]
    End [expr_do Case]
];

const COUNT_TAIL: &[Entry] = entries![
    Star [expr_do CountAll]
];

/// What comes after the first token of the rule, by the kind of the token.
pub fn alternatives(rule: ExprRule) -> &'static [Entry]
    ensures { map shown result.now ≡ spec.alternatives rule }
{
    match rule {
        ExprRule::OrTail => OR_TAIL,
        ExprRule::AndTail => AND_TAIL,
        ExprRule::Not => NOT,
        ExprRule::ComparisonTail => COMPARISON_TAIL,
        ExprRule::IsTail => IS_TAIL,
        ExprRule::NotTail => NOT_TAIL,
        ExprRule::JoinedTail => JOINED_TAIL,
        ExprRule::SumTail => SUM_TAIL,
        ExprRule::ProductTail => PRODUCT_TAIL,
        ExprRule::Signed => SIGNED,
        ExprRule::Atom => ATOM,
        ExprRule::NameTail => NAME_TAIL,
        ExprRule::Name => NAME,
        ExprRule::ListTail => LIST_TAIL,
        ExprRule::Arm => ARM,
        ExprRule::ArmsTail => ARMS_TAIL,
        ExprRule::CaseTail => CASE_TAIL,
        ExprRule::CountTail => COUNT_TAIL,
        _ => &[],
    }
}

/// The rule's right-hand side that begins with no token of its own.
pub fn otherwise(rule: ExprRule) -> Option<&'static [Part]>
    ensures { Shows result (spec.otherwise rule) }
{
    match rule {
        ExprRule::Outermost => Some(items![expr_do Begin, expr Or, expr_do End]),
        ExprRule::Or => Some(items![expr And, expr OrTail]),
        ExprRule::And => Some(items![expr Not, expr AndTail]),
        ExprRule::Not => Some(items![expr Comparison]),
        ExprRule::Comparison => Some(items![expr Joined, expr ComparisonTail]),
        ExprRule::Joined => Some(items![expr Sum, expr JoinedTail]),
        ExprRule::Sum => Some(items![expr Product, expr SumTail]),
        ExprRule::Product => Some(items![expr Signed, expr ProductTail]),
        ExprRule::Signed => Some(items![expr Atom]),
        ExprRule::NameTail => Some(items![expr_do Bare]),
        ExprRule::List => Some(items![expr_do BeginList, expr Or, expr_do Entry, expr ListTail]),
        ExprRule::CountTail => Some(items![expr Or, expr_do Count]),
        ExprRule::OrTail
        | ExprRule::AndTail
        | ExprRule::ComparisonTail
        | ExprRule::JoinedTail
        | ExprRule::SumTail
        | ExprRule::ProductTail
        | ExprRule::ListTail
        | ExprRule::ArmsTail => Some(&[]),
        _ => None,
    }
}
