//! What a derivation is made of.

/// A part of what a sentence is still to be: a nonterminal, or an action that takes no token.
#[derive(Clone, Copy, Drop, Debug, PartialEq, Eq)]
pub enum Symbol<N, A> {
    Nonterminal(N),
    Action(A),
}

/// A step of a derivation: a token is taken, or an action is passed.
#[derive(Clone, Copy, Drop, Debug, PartialEq, Eq)]
pub enum Step<T, A> {
    Took(T),
    Did(A),
}
