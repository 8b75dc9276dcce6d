//! Errors, and what was read before them: there is no dataset `w`, and none `x`, which is in doubt. Where there is no dataset,
//! `NoDataset` is told before each other error of a command but that of a formula's text.
use crate::tests::gives;
use crate::tests_commands::*;
use std::test::*;

#[test]
fn no_dataset_is_told_before_no_column(rt: HostRuntime) {
    let alloc = rt.alloc();
    assert!(rt; gives(alloc, insert_column("t", "a", 0), "NoColumn; t"));
    assert!(rt; gives(alloc, insert_column("w", "a", 0), "NoDataset; w"));
    assert!(rt; gives(alloc, delete_column("t", "a"), "NoColumn; t"));
    assert!(rt; gives(alloc, delete_column("w", "a"), "NoDataset; w"));
    assert!(rt; gives(alloc, rename_column("t", "a", "b"), "NoColumn; t"));
    assert!(rt; gives(alloc, rename_column("w", "a", "b"), "NoDataset; w"));
    assert!(rt; gives(alloc, move_column("t", "a", 1), "NoColumn; t"));
    assert!(rt; gives(alloc, move_column("w", "a", 1), "NoDataset; w"));
    assert!(rt; gives(alloc, keep_columns(alloc, "t", ["a", "b"]), "NoColumn; t"));
    assert!(rt; gives(alloc, keep_columns(alloc, "w", ["a", "b"]), "NoDataset; w"));
}

#[test]
fn no_dataset_is_told_before_no_row(rt: HostRuntime) {
    let alloc = rt.alloc();
    assert!(rt; gives(alloc, insert_row(alloc, "t", "z", "#1"), "NoRow; t"));
    assert!(rt; gives(alloc, insert_row(alloc, "w", "z", "#1"), "NoDataset; w"));
    assert!(rt; gives(alloc, delete_row(alloc, "t", "#1"), "NoRow; t"));
    assert!(rt; gives(alloc, delete_row(alloc, "w", "#1"), "NoDataset; w"));
    assert!(rt; gives(alloc, move_row(alloc, "t", "#1", ""), "NoRow; t"));
    assert!(rt; gives(alloc, move_row(alloc, "w", "#1", ""), "NoDataset; w"));
}

#[test]
fn no_dataset_is_told_before_what_is_wrong_with_a_value(rt: HostRuntime) {
    let alloc = rt.alloc();
    assert!(rt; gives(alloc, set_value(alloc, "t", "#1", 7), "NoColumn; t"));
    assert!(rt; gives(alloc, set_value(alloc, "w", "#1", 7), "NoDataset; w"));
    assert!(rt; gives(alloc, sort(alloc, "t", "a"), "NoColumn; t"));
    assert!(rt; gives(alloc, sort(alloc, "w", "a"), "NoDataset; w"));
}

// A text that is no expression errs before any dataset is read; one whose types don't fit only after the column was found.
#[test]
fn no_dataset_is_told_after_a_formulas_text_and_before_its_types(rt: HostRuntime) {
    let alloc = rt.alloc();
    assert!(rt; gives(alloc, formula(alloc, "t", "1 +"), "Syntax at 3; "));
    assert!(rt; gives(alloc, formula(alloc, "w", "1 +"), "Syntax at 3; "));
    assert!(rt; gives(alloc, formula(alloc, "t", "1"), "NoColumn; t"));
    assert!(rt; gives(alloc, formula(alloc, "w", "1"), "NoDataset; w"));
    assert!(rt; gives(alloc, formula(alloc, "t", "1 + 'x'"), "NoColumn; t"));
    assert!(rt; gives(alloc, formula(alloc, "w", "1 + 'x'"), "NoDataset; w"));
}

// The other name is read only where the dataset is there.
#[test]
fn no_dataset_is_told_before_a_taken_name(rt: HostRuntime) {
    let alloc = rt.alloc();
    assert!(rt; gives(alloc, rename("w", "t"), "NoDataset; w"));
    assert!(rt; gives(alloc, rename("w", "w"), "NoDataset; w"));
    assert!(rt; gives(alloc, rename("w", "v"), "NoDataset; w"));
    assert!(rt; gives(alloc, copy("w", "t"), "NoDataset; w"));
    assert!(rt; gives(alloc, copy("w", "w"), "NoDataset; w"));
    assert!(rt; gives(alloc, copy("w", "v"), "NoDataset; w"));
    assert!(rt; gives(alloc, drop("w"), "NoDataset; w"));
}

#[test]
fn a_dataset_that_may_be_there_is_not(rt: HostRuntime) {
    let alloc = rt.alloc();
    assert!(rt; gives(alloc, insert_column("x", "a", 1), "NoDataset; x"));
    assert!(rt; gives(alloc, insert_row(alloc, "x", "z", ""), "NoDataset; x"));
    assert!(rt; gives(alloc, rename("x", "t"), "NoDataset; x"));
    assert!(rt; gives(alloc, copy("x", "x"), "NoDataset; x"));
    assert!(rt; gives(alloc, drop("x"), "NoDataset; x"));
}

// A dataset's own name is taken, and is read once.
#[test]
fn a_name_with_a_dataset_is_taken(rt: HostRuntime) {
    let alloc = rt.alloc();
    assert!(rt; gives(alloc, rename("t", "u"), "NameTaken; tu"));
    assert!(rt; gives(alloc, rename("u", "t"), "NameTaken; ut"));
    assert!(rt; gives(alloc, rename("t", "t"), "NameTaken; t"));
    assert!(rt; gives(alloc, rename("u", "u"), "NameTaken; u"));
    assert!(rt; gives(alloc, copy("t", "u"), "NameTaken; tu"));
    assert!(rt; gives(alloc, copy("u", "t"), "NameTaken; ut"));
    assert!(rt; gives(alloc, copy("t", "t"), "NameTaken; t"));
    assert!(rt; gives(alloc, copy("u", "u"), "NameTaken; u"));
}
