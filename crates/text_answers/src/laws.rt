//! What is true of every text. A law has no body: its clause is proved.
ghost use Rattle.text_answers.specs.Laws.{ExpressionsAreThose, SelectsAreThose};

/// A text's expression is its tree by the grammar, its error the place where it errs by the grammar.
pub fn law_of_expressions()
    ensures { ExpressionsAreThose }
{}

/// The same of SELECT.
pub fn law_of_selects()
    ensures { SelectsAreThose }
{}
