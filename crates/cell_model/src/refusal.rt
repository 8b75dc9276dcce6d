//! Why an edit is refused.

/// Why an edit line is refused, in the order of their numbers E1 to E11.
#[derive(Clone, Copy, Debug, PartialEq, Eq)]
pub enum EditRefusal {
    /// E1: the line is no JSON value.
    BadJson,
    /// E2: the value is no edit.
    BadEdit,
    /// E3: the branch doesn't exist.
    NoBranch,
    /// E4: the version to branch from doesn't exist.
    NoVersion,
    /// E5: the position is out of range.
    NoCell,
    /// E6: the new branch's name is in use.
    BranchTaken,
    /// E7: versions, cells or distinct prefixes would pass their limit.
    TooMany,
    /// E8: the shelf has no such file.
    NoFile,
    /// E9: the file is too long.
    FileTooLong,
    /// E10: the shelf failed.
    FileFault,
    /// E11: the line is too long.
    LineTooLong,
}
