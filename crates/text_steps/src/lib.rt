//! That each text has steps of a derivation, or a place where it errs.
//!
//! `notebook_grammar` says that a text has at most one answer of the two. That there is one is said
//! here, for contracts that need the answer as a function of the text. No code is here.
#![tactic(auto)]

ghost use Rattle.text_steps.specs.Laws.{EachTextIsRead};

/// Each text has steps, or a place where it errs, whatever it is to be.
pub fn law_of_reading()
    ensures { EachTextIsRead }
{}
