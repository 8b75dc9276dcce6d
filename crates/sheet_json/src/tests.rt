//! Objects that are commands, read and written, and others that are none.
ghost use Rattle.std.specs.Prelude.{IfOk, IfSome};
ghost use Rattle.sheet_json.specs.Plain.{IsPlainCommand};

use crate::{command_json, command_of};
use serde_json::Value as Json;
use sheet_commands::Command;
use std::alloc::Global;
use std::test::Fail;
use value_types::{NoMemory, Words};

/// The object of these fields.
fn object(alloc: Global, fields: &str) -> Result<Words, NoMemory> {
    let mut all = Words::new(alloc)?;
    for text in ["{", fields, "}"] {
        all.push_text(alloc, text)?;
    }
    Ok(all)
}

/// The command that the object of these fields is.
fn command(alloc: Global, fields: &str) -> Result<Option<Command>, Fail>
    ensures { IfOk result (λ found. IfSome found IsPlainCommand) }
{
    let text = object(alloc, fields)?;
    let json = Json::from_str(alloc, text.as_text()).ok().ok_or("no JSON")?;
    match command_of(alloc, &json)? {
        Some(command) => Ok(Some(command)),
        None => Ok(None),
    }
}

fn text_of(alloc: Global, command: &Command) -> Result<String, NoMemory>
    requires { IsPlainCommand command.now }
{
    let json = command_json(alloc, command)?;
    Ok(json.to_string(alloc)?)
}

/// The text of the object's command once it is written, or none where it is no command.
fn written_again(alloc: Global, fields: &str) -> Result<Option<String>, Fail> {
    match command(alloc, fields)? {
        Some(command) => Ok(Some(text_of(alloc, &command)?)),
        None => Ok(None),
    }
}

/// Whether the command is written as the object of these fields, which are in the order of their names.
fn is_written_so(alloc: Global, fields: &str) -> Result<bool, Fail> {
    match written_again(alloc, fields)? {
        Some(written) => Ok(written.as_str() == object(alloc, fields)?.as_text()),
        None => Ok(false),
    }
}

fn is_command(alloc: Global, fields: &str) -> Result<bool, Fail> {
    Ok(command(alloc, fields)?.is_some())
}

#[test]
fn each_command_is_read_and_written_as_it_stands(rt: HostRuntime) -> Result<(), Fail> {
    for fields in [
        "\"at\":0,\"dataset\":\"t\",\"name\":\"a\",\"type\":\"fixed\",\"vizual\":\"insert_column\"",
        "\"dataset\":\"t\",\"name\":\"a\",\"vizual\":\"delete_column\"",
        "\"dataset\":\"t\",\"name\":\"a\",\"to\":\"b\",\"vizual\":\"rename_column\"",
        "\"at\":4294967295,\"dataset\":\"t\",\"name\":\"a\",\"vizual\":\"move_column\"",
        "\"dataset\":\"t\",\"names\":[\"b\",\"a\"],\"vizual\":\"keep_columns\"",
        "\"after\":null,\"dataset\":\"t\",\"row\":\"z\",\"vizual\":\"insert_row\"",
        "\"after\":\"#1\",\"dataset\":\"t\",\"row\":\"z\",\"vizual\":\"insert_row\"",
        "\"dataset\":\"t\",\"row\":\"(#1,-)\",\"vizual\":\"delete_row\"",
        "\"after\":\"\",\"dataset\":\"t\",\"row\":\"#2\",\"vizual\":\"move_row\"",
        "\"column\":\"a\",\"dataset\":\"t\",\"row\":\"#1\",\"value\":null,\"vizual\":\"set_value\"",
        "\"column\":\"a\",\"dataset\":\"t\",\"row\":\"@z\",\"value\":{\"fixed\":\"-0.5000\"},\
         \"vizual\":\"set_value\"",
        "\"column\":\"a\",\"dataset\":\"t\",\"text\":\"1 +\",\"vizual\":\"formula\"",
        "\"by\":[[\"a\",\"asc\"],[\"a\",\"desc\"]],\"dataset\":\"t\",\"vizual\":\"sort\"",
        "\"dataset\":\"t\",\"to\":\"t\",\"vizual\":\"rename_dataset\"",
        "\"dataset\":\"t\",\"to\":\"u\",\"vizual\":\"copy_dataset\"",
        "\"dataset\":\"t\",\"vizual\":\"drop_dataset\"",
    ] {
        assert!(rt; is_written_so(rt.alloc(), fields)?, "{fields}");
    }
    Ok(())
}

#[test]
fn other_objects_are_no_command(rt: HostRuntime) -> Result<(), Fail> {
    for fields in [
        "\"dataset\":\"t\",\"vizual\":\"drop\"",
        "\"dataset\":\"t\",\"vizual\":\"Drop_dataset\"",
        "\"dataset\":\"T\",\"vizual\":\"drop_dataset\"",
        "\"vizual\":\"drop_dataset\"",
        "\"dataset\":\"t\",\"to\":\"u\",\"vizual\":\"drop_dataset\"",
        "\"dataset\":\"t\",\"vizual\":\"copy_dataset\"",
        "\"dataset\":\"t\",\"row\":\"z\",\"vizual\":\"insert_row\"",
        "\"after\":null,\"dataset\":\"t\",\"row\":\"@z\",\"vizual\":\"insert_row\"",
        "\"after\":1,\"dataset\":\"t\",\"row\":\"#1\",\"vizual\":\"move_row\"",
        "\"dataset\":\"t\",\"row\":1,\"vizual\":\"delete_row\"",
        "\"column\":\"a\",\"dataset\":\"t\",\"row\":\"#1\",\"value\":1.5,\"vizual\":\"set_value\"",
        "\"column\":\"a\",\"dataset\":\"t\",\"row\":\"#1\",\"vizual\":\"set_value\"",
        "\"at\":-1,\"dataset\":\"t\",\"name\":\"a\",\"vizual\":\"move_column\"",
        "\"at\":4294967296,\"dataset\":\"t\",\"name\":\"a\",\"vizual\":\"move_column\"",
        "\"at\":1,\"dataset\":\"t\",\"name\":\"a\",\"type\":\"INT\",\"vizual\":\"insert_column\"",
        "\"dataset\":\"t\",\"names\":[],\"vizual\":\"keep_columns\"",
        "\"dataset\":\"t\",\"names\":[\"a\",\"b\",\"a\"],\"vizual\":\"keep_columns\"",
        "\"by\":[],\"dataset\":\"t\",\"vizual\":\"sort\"",
        "\"by\":[[\"a\"]],\"dataset\":\"t\",\"vizual\":\"sort\"",
        "\"by\":[[\"a\",\"up\"]],\"dataset\":\"t\",\"vizual\":\"sort\"",
        "\"by\":[[\"a\",\"asc\",1]],\"dataset\":\"t\",\"vizual\":\"sort\"",
        "\"column\":\"a\",\"dataset\":\"t\",\"text\":null,\"vizual\":\"formula\"",
    ] {
        assert!(rt; !is_command(rt.alloc(), fields)?, "{fields}");
    }
    Ok(())
}

/// The fields of a sort by one column so many times.
fn sort_by(alloc: Global, count: usize) -> Result<Words, NoMemory> {
    let mut fields = Words::new(alloc)?;
    fields.push_text(alloc, "\"by\":[")?;
    for n in 0..count {
        fields.push_text(alloc, if n == 0 { "" } else { "," })?;
        fields.push_text(alloc, "[\"a\",\"asc\"]")?;
    }
    fields.push_text(alloc, "],\"dataset\":\"t\",\"vizual\":\"sort\"")?;
    Ok(fields)
}

#[test]
fn a_sort_goes_by_at_most_32_columns(rt: HostRuntime) -> Result<(), Fail> {
    let alloc = rt.alloc();
    for (count, taken) in [(32, true), (33, false)] {
        let fields = sort_by(alloc, count)?;
        assert!(rt;
            is_command(alloc, fields.as_text())? == taken,
            "{count} columns"
        );
    }
    Ok(())
}
