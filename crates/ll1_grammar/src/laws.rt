//! The theorems, a law each. A law has no body: its clause is proved.
ghost use Rattle.ll1_grammar.specs.Laws as law;

/// Where one token ahead decides, each text of a nonterminal has one derivation.
pub fn law_of_one_derivation<N, T, A>()
    ensures { law.OneDerivation N T A }
{}

/// The steps of a derivation take its text.
pub fn law_of_steps<N, T, A>()
    ensures { law.StepsTakeTheText N T A }
{}

/// Where one token ahead decides, the steps up to a token depend on the tokens up to there alone.
pub fn law_of_fronts<N, T, A>()
    ensures { law.OneFront N T A }
{}

/// Where one token ahead decides and each nonterminal has a sentence, a reader stops exactly at the
/// error place.
pub fn law_of_the_place<N, T, A>()
    ensures { law.StopsAreExact N T A }
{}

/// In any grammar a text has at most one error place, and a sentence has none.
pub fn law_of_one_place<N, T, A>()
    ensures { law.OnePlace N T A }
{}

/// A reader that only does the turns of `specs/Reader.antt` ends with a derivation, or stops.
pub fn law_of_readers<N, T, A>()
    ensures { law.ReadersAreRight N T A }
{}

/// Where each rule of a table passes the test, one token ahead decides.
pub fn law_of_the_test<R, T, A>()
    ensures { law.TestDecides R T A }
{}

/// In a table that passes the test no alternative hides another: each is the entry for its kind.
pub fn law_of_alternatives<R, A>()
    ensures { law.AlternativesCount R A }
{}

/// Where a short sentence of each rule is found, each rule has one at every depth.
pub fn law_of_short_sentences<R, T, A>()
    ensures { law.ShortSentencesServe R T A }
{}

/// Where the shapes of a table's actions fit, a sentence of a closed part of it builds one piece, and
/// none is missing.
pub fn law_of_trees<R, T, A, P>()
    ensures { law.SentencesHaveTrees R T A P }
{}
