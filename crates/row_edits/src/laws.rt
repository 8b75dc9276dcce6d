//! The laws of the commands. Each is a call that does nothing, and the law is its contract.
//!
//! `erases`: dropping marks and flags after the command or before it is one thing, errors included. `shows`: what is shown of the
//! result is what the command makes of what is shown. `same`: where two datasets show the same, so do the results.
//! `keeps`: what a dataset keeps, the result keeps.
ghost use Rattle.row_edits.specs.Laws.{InsertErases, InsertShows, InsertKeepsShown, InsertKeepsRules};
ghost use Rattle.row_edits.specs.Laws.{DeleteErases, DeleteShows, DeleteKeepsShown, DeleteKeepsRules};
ghost use Rattle.row_edits.specs.Laws.{MoveErases, MoveShows, MoveKeepsShown, MoveKeepsRules};
ghost use Rattle.row_edits.specs.Laws.{SetErases, SetShows, SetKeepsShown, SetKeepsRules};
ghost use Rattle.row_edits.specs.Laws.{SortErases, SortShows, SortKeepsShown, SortKeepsRules};

use sheet_commands::SortNames;
use value_types::{Name, Value, Words};

/// The laws of `insert_row`.
pub fn law_of_insert_row(row: &Name, after: &Option<Words>)
    ensures erases { InsertErases row.now after.now }
    ensures shows { InsertShows row.now after.now }
    ensures same { InsertKeepsShown row.now after.now }
    ensures keeps { InsertKeepsRules row.now after.now }
{}

/// The laws of `delete_row`.
pub fn law_of_delete_row(row: &Words)
    ensures erases { DeleteErases row.now }
    ensures shows { DeleteShows row.now }
    ensures same { DeleteKeepsShown row.now }
    ensures keeps { DeleteKeepsRules row.now }
{}

/// The laws of `move_row`.
pub fn law_of_move_row(row: &Words, after: &Option<Words>)
    ensures erases { MoveErases row.now after.now }
    ensures shows { MoveShows row.now after.now }
    ensures same { MoveKeepsShown row.now after.now }
    ensures keeps { MoveKeepsRules row.now after.now }
{}

/// The laws of `set_value`.
pub fn law_of_set_value(row: &Words, column: &Name, value: &Value)
    ensures erases { SetErases row.now column.now value.now }
    ensures shows { SetShows row.now column.now value.now }
    ensures same { SetKeepsShown row.now column.now value.now }
    ensures keeps { SetKeepsRules row.now column.now value.now }
{}

/// The laws of `sort`.
pub fn law_of_sort(by: &SortNames)
    ensures erases { SortErases by.now }
    ensures shows { SortShows by.now }
    ensures same { SortKeepsShown by.now }
    ensures keeps { SortKeepsRules by.now }
{}
