//! The names that a report prints: of types, of statuses and errors of cells, and of refusals.
ghost use Rattle.std.specs.Prelude.{◌≡◌, ◌++◌, OnOk};
ghost use Rattle.report_text.specs.Names.{type_name, error_name, status_name, refusal_name};

use crate::pieces::push_number;
use cell_errors::CellError;
use cell_model::{CellStatus, EditRefusal};
use std::alloc::Global;
use value_types::{ColumnType, NoMemory, Words};

pub fn type_name(kind: ColumnType) -> &'static str
    ensures { result.now ≡ type_name kind }
{
    match kind {
        ColumnType::Bool => "bool",
        ColumnType::Int => "int",
        ColumnType::Fixed => "fixed",
        ColumnType::Text => "text",
    }
}

pub fn push_error(alloc: Global, out: &mut Words, error: CellError) -> Result<(), NoMemory>
    ensures { OnOk result (out.new ≡ out.old ++ error_name error) }
{
    match error {
        CellError::Syntax { at } => {
            out.push_text(alloc, "Syntax at ")?;
            push_number(alloc, out, u64::from(at))
        }
        CellError::NoDataset => out.push_text(alloc, "NoDataset"),
        CellError::NoColumn => out.push_text(alloc, "NoColumn"),
        CellError::TypeFault => out.push_text(alloc, "TypeFault"),
        CellError::Overflow => out.push_text(alloc, "Overflow"),
        CellError::ZeroDivisor => out.push_text(alloc, "ZeroDivisor"),
        CellError::TooLarge => out.push_text(alloc, "TooLarge"),
        CellError::Fuel => out.push_text(alloc, "Fuel"),
        CellError::NameTaken => out.push_text(alloc, "NameTaken"),
        CellError::NoRow => out.push_text(alloc, "NoRow"),
        CellError::RowTaken => out.push_text(alloc, "RowTaken"),
        CellError::NoHeader => out.push_text(alloc, "NoHeader"),
        CellError::BadCast => out.push_text(alloc, "BadCast"),
    }
}

pub fn push_status(alloc: Global, out: &mut Words, status: CellStatus) -> Result<(), NoMemory>
    ensures { OnOk result (out.new ≡ out.old ++ status_name status) }
{
    match status {
        CellStatus::Ok => out.push_text(alloc, "ok"),
        CellStatus::Error(error) => {
            out.push_text(alloc, "error ")?;
            push_error(alloc, out, error)
        }
        CellStatus::Blocked => out.push_text(alloc, "blocked"),
    }
}

pub fn refusal_name(refusal: EditRefusal) -> &'static str
    ensures { result.now ≡ refusal_name refusal }
{
    match refusal {
        EditRefusal::BadJson => "E1 BadJson",
        EditRefusal::BadEdit => "E2 BadEdit",
        EditRefusal::NoBranch => "E3 NoBranch",
        EditRefusal::NoVersion => "E4 NoVersion",
        EditRefusal::NoCell => "E5 NoCell",
        EditRefusal::BranchTaken => "E6 BranchTaken",
        EditRefusal::TooMany => "E7 TooMany",
        EditRefusal::NoFile => "E8 NoFile",
        EditRefusal::FileTooLong => "E9 FileTooLong",
        EditRefusal::FileFault => "E10 FileFault",
        EditRefusal::LineTooLong => "E11 LineTooLong",
    }
}
