//! The rules of the one grammar, by language.
use crate::kind::Kind;

/// A rule of the grammar.
#[derive(Clone, Copy, Drop, Debug)]
pub enum Rule {
    /// A token of this kind.
    Expect(Kind),
    Expr(ExprRule),
    Select(SelectRule),
    Script(ScriptRule),
}

/// The rules of expressions, from the loosest operator to the tightest. A tail goes on with what was
/// read.
#[derive(Clone, Copy, Drop, Debug)]
pub enum ExprRule {
    /// An expression that stands in no other: its tokens are counted.
    Outermost,
    Or,
    OrTail,
    And,
    AndTail,
    Not,
    Comparison,
    ComparisonTail,
    IsTail,
    NotTail,
    Joined,
    JoinedTail,
    Sum,
    SumTail,
    Product,
    ProductTail,
    Signed,
    Atom,
    NameTail,
    Name,
    List,
    ListTail,
    Arm,
    ArmsTail,
    CaseTail,
    CountTail,
}

/// The rules of SELECT.
#[derive(Clone, Copy, Drop, Debug)]
pub enum SelectRule {
    Select,
    Core,
    ThreeUnions,
    TwoUnions,
    OneUnion,
    Distinct,
    Items,
    Item,
    ItemName,
    ItemsTail,
    Table,
    TableName,
    ThreeJoins,
    TwoJoins,
    OneJoin,
    LeftTail,
    Join,
    Where,
    GroupBy,
    Column,
    ColumnTail,
    ColumnsTail,
    Having,
    OrderBy,
    Key,
    Direction,
    KeysTail,
    Limit,
    End,
}

/// The rules of scripts.
#[derive(Clone, Copy, Drop, Debug)]
pub enum ScriptRule {
    Script,
    Builders,
    Column,
    ColumnsTail,
    Statements,
    Assigned,
    Source,
    Block,
    Else,
    Loop,
    Target,
    Values,
    ValuesTail,
}
