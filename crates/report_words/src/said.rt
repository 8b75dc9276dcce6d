//! What a line of a stream says.
use cell_model::EditRefusal;
use edit_wire::Edit;

/// What a line of a stream says, before the notebook is looked at.
#[derive(Drop)]
pub enum Said {
    /// It is skipped.
    Nothing,
    /// It says no edit.
    Refuses(EditRefusal),
    Edits(Edit),
}
