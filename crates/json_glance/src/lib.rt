//! What a line is as JSON, and a first look at it.
//!
//! `json_of` builds the value of a line by `serde_json`. `glance_at` tells one text of that value without
//! building it, and takes no memory for it: start at `specs/Line.antt`. What the value means is
//! not here, but in `edit_wire`.
#![tactic(auto)]

mod line;
mod look;
mod number;
mod pass;
#[cfg(test)]
mod tests;

pub use line::json_of;
pub use look::{Glance, glance_at};
