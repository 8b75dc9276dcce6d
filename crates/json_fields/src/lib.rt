//! What stands in the fields of a JSON object, read and written: names, values, columns, positions and lists.
//!
//! Start at `field`, which reads what a field holds by `FromJson`; `ToJson` writes it. `specs/Json.antt`
//! says how fields are looked at, `specs/Values.antt` and the modules after it what each of them may hold.
//! Which fields an object has is not here: those of spreadsheet commands are in `sheet_json`, those of
//! edits and picks in `edit_wire`.
#![tactic(auto)]

mod column;
mod column_json;
mod from_json;
mod lists;
mod lists_json;
mod load_options;
mod load_options_json;
mod position;
#[cfg(test)]
mod tests;
mod to_json;
mod value;
mod values_json;

pub use column::type_field;
pub use column_json::type_word;
pub use from_json::{
    FromJson, all_of, counted, field, field_or, has_members, list_field, text_field,
};
pub use load_options_json::repair_word;
pub use position::position_field;
pub use to_json::{ToJson, each_json};
pub use value::{value_field, value_for, words_of};
pub use values_json::value_json;
