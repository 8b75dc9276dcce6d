//! What is shown of datasets: all that stands there without caveat.
//!
//! There is no code here, but the definitions that laws on other picks speak of. Start at `specs/Shown.antt`.
//! The laws themselves stand with the calls of which they speak.
#![tactic(auto)]
