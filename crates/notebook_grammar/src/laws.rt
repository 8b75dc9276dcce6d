//! What is true of every text. A law has no body: its clause is proved.
ghost use Rattle.notebook_grammar.specs.Laws as law;

/// A text has one list of lexemes.
pub fn law_of_one_reading()
    ensures { law.OneReading }
{}

/// The tokens of a text are slices of it, in order.
pub fn law_of_order()
    ensures { law.TokensInOrder }
{}

/// Names are names and numbers are in range, so that their values can be read from the text.
pub fn law_of_values()
    ensures { law.ValuesAreThere }
{}

/// Lexemes have one derivation from a rule.
pub fn law_of_one_derivation()
    ensures { law.OneDerivation }
{}

/// A text has one list of steps, or is wrong at one place.
pub fn law_of_one_answer()
    ensures { law.OneAnswer }
{}

/// Whoever builds trees by the shapes never lacks a piece, and has the tree of the text in the end.
pub fn law_of_trees<P>()
    ensures { law.HaveTrees P }
{}
