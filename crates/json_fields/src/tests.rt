//! Fields with the things that they hold, others with none, and things that are written.
use crate::{
    FromJson, ToJson, counted, field, field_or, has_members, list_field, position_field,
    repair_word, text_field, type_field, type_word, value_field, value_for, value_json, words_of,
};
use dataset_types::{Column, Repair, Types};
use serde_json::Value as Json;
use sheet_commands::{DistinctNames, SortName, SortNames};
use std::alloc::Global;
use std::test::Fail;
use value_types::{ColumnType, Name, NoMemory, Words};

/// The object whose one field `a` is this.
fn object(alloc: Global, text: &str) -> Result<Json, Fail> {
    let whole = format!(in alloc; "{{\"a\":{text}}}")?;
    Ok(Json::from_str(alloc, whole.as_str()).ok().ok_or("no JSON")?)
}

/// Whether the JSON has this text.
fn has_text(alloc: Global, json: &Json, text: &str) -> Result<bool, Fail> {
    Ok(json.to_string(alloc)?.as_str() == text)
}

/// Whether the field holds such a thing, which is written as the field is.
fn is_written_so<T: FromJson + ToJson>(alloc: Global, text: &str) -> Result<bool, Fail> {
    let json = object(alloc, text)?;
    match field::<T>(alloc, &json, "a")? {
        Some(thing) => has_text(alloc, &thing.to_json(alloc)?, text),
        None => Ok(false),
    }
}

/// Whether the field holds such a thing.
fn is_one<T: FromJson>(alloc: Global, text: &str) -> Result<bool, Fail> {
    let json = object(alloc, text)?;
    Ok(field::<T>(alloc, &json, "a")?.is_some())
}

#[test]
fn names_columns_and_rows_are_written_as_they_are_read(rt: HostRuntime) -> Result<(), Fail> {
    let alloc = rt.alloc();
    assert!(rt; is_written_so::<Name>(alloc, "\"b_2\"")?);
    assert!(rt; !is_one::<Name>(alloc, "\"B\"")?);
    assert!(rt; !is_one::<Name>(alloc, "1")?);
    for text in [
        "[\"a\",\"bool\"]",
        "[\"a\",\"int\"]",
        "[\"a\",\"fixed\"]",
        "[\"a\",\"text\"]",
    ] {
        assert!(rt; is_written_so::<Column>(alloc, text)?, "{text}");
    }
    for text in [
        "[\"a\"]",
        "[\"a\",\"INT\"]",
        "[\"a\",\"int\",1]",
        "[1,\"int\"]",
        "\"int\"",
    ] {
        assert!(rt; !is_one::<Column>(alloc, text)?, "{text}");
    }
    assert!(rt; is_written_so::<Option<Words>>(alloc, "null")?);
    assert!(rt; is_written_so::<Option<Words>>(alloc, "\"(#1,-)\"")?);
    assert!(rt; !is_one::<Option<Words>>(alloc, "1")?);
    Ok(())
}

#[test]
fn types_and_orders_are_written_as_they_are_read(rt: HostRuntime) -> Result<(), Fail> {
    let alloc = rt.alloc();
    for text in ["\"guess\"", "\"bool\"", "\"int\"", "\"fixed\"", "\"text\""] {
        assert!(rt; is_written_so::<Option<ColumnType>>(alloc, text)?, "{text}");
    }
    for text in ["null", "\"Guess\"", "\"date\""] {
        assert!(rt; !is_one::<Option<ColumnType>>(alloc, text)?, "{text}");
    }
    for text in ["[\"a\",\"asc\"]", "[\"a\",\"desc\"]"] {
        assert!(rt; is_written_so::<SortName>(alloc, text)?, "{text}");
    }
    for text in ["[\"a\"]", "[\"a\",\"up\"]", "[\"a\",\"asc\",1]", "\"a\""] {
        assert!(rt; !is_one::<SortName>(alloc, text)?, "{text}");
    }
    Ok(())
}

/// A list of so many items.
fn list(alloc: Global, item: &str, count: u32) -> Result<Words, NoMemory> {
    let mut all = words_of(alloc, "[")?;
    for n in 0..count {
        all.push_text(alloc, if n == 0 { "" } else { "," })?;
        all.push_text(alloc, item)?;
    }
    all.push_text(alloc, "]")?;
    Ok(all)
}

/// A list of so many names, of which none comes twice.
fn names(alloc: Global, count: u32) -> Result<Words, NoMemory> {
    let mut all = words_of(alloc, "[")?;
    for n in 0..count {
        let comma = if n == 0 { "" } else { "," };
        let item = format!(in alloc; "{comma}\"c{n}\"")?;
        all.push_text(alloc, item.as_str())?;
    }
    all.push_text(alloc, "]")?;
    Ok(all)
}

fn names_are_kept(alloc: Global, count: u32) -> Result<bool, Fail> {
    let names = names(alloc, count)?;
    is_one::<DistinctNames>(alloc, names.as_text())
}

/// Whether so many items are a list of these.
fn are_list<T: FromJson>(alloc: Global, item: &str, count: u32) -> Result<bool, Fail> {
    let items = list(alloc, item, count)?;
    is_one::<T>(alloc, items.as_text())
}

#[test]
fn a_list_has_at_most_32_items(rt: HostRuntime) -> Result<(), Fail> {
    let alloc = rt.alloc();
    for (count, taken) in [(0, false), (1, true), (32, true), (33, false)] {
        assert!(rt; names_are_kept(alloc, count)? == taken, "{count} names");
        assert!(rt;
            are_list::<SortNames>(alloc, "[\"a\",\"asc\"]", count)? == taken,
            "{count} columns"
        );
    }
    for (count, taken) in [(0, true), (32, true), (33, false)] {
        assert!(rt;
            are_list::<Types>(alloc, "\"guess\"", count)? == taken,
            "{count} types"
        );
    }
    assert!(rt; !is_one::<DistinctNames>(alloc, "[\"a\",\"b\",\"a\"]")?);
    assert!(rt; is_one::<SortNames>(alloc, "[[\"a\",\"asc\"],[\"a\",\"desc\"]]")?);
    Ok(())
}

/// Whether the field holds a value that is written so.
fn value_is(alloc: Global, text: &str, written: &str) -> Result<bool, Fail> {
    let json = object(alloc, text)?;
    match value_field(alloc, &json, "a")? {
        Some(value) => has_text(alloc, &value_json(alloc, &value)?, written),
        None => Ok(written == "none"),
    }
}

#[test]
fn values_are_read_and_written(rt: HostRuntime) -> Result<(), Fail> {
    for (text, written) in [
        ("null", "null"),
        ("true", "true"),
        ("-9223372036854775808", "-9223372036854775808"),
        ("\"x\\n\\\"\"", "\"x\\n\\\"\""),
        ("{\"fixed\":\"-0.5\"}", "{\"fixed\":\"-0.5000\"}"),
        ("9223372036854775808", "none"),
        ("1.0", "none"),
        ("[]", "none"),
        ("{\"fixed\":1}", "none"),
        ("{\"fixed\":\"1.23456\"}", "none"),
        ("{\"fixed\":\"1\",\"b\":1}", "none"),
    ] {
        assert!(rt; value_is(rt.alloc(), text, written)?, "{text}");
    }
    Ok(())
}

/// Whether the value fits a column of the type and is then written so.
fn fits(alloc: Global, kind: ColumnType, text: &str, written: &str) -> Result<bool, Fail> {
    let json = Json::from_str(alloc, text).ok().ok_or("no JSON")?;
    match value_for(alloc, kind, &json)? {
        Some(value) => has_text(alloc, &value_json(alloc, &value)?, written),
        None => Ok(written == "none"),
    }
}

#[test]
fn a_value_fits_its_column(rt: HostRuntime) -> Result<(), Fail> {
    for (kind, text, written) in [
        (ColumnType::Fixed, "3", "{\"fixed\":\"3.0000\"}"),
        (ColumnType::Fixed, "922337203685478", "none"),
        (ColumnType::Int, "3", "3"),
        (ColumnType::Int, "{\"fixed\":\"3\"}", "none"),
        (ColumnType::Int, "\"3\"", "none"),
        (ColumnType::Bool, "null", "null"),
    ] {
        assert!(rt; fits(rt.alloc(), kind, text, written)?, "{kind:?} {text}");
    }
    Ok(())
}

fn position(alloc: Global, text: &str) -> Result<Option<u32>, Fail> {
    let json = object(alloc, text)?;
    Ok(position_field(&json, "a"))
}

#[test]
fn positions_are_those_of_32_bits(rt: HostRuntime) -> Result<(), Fail> {
    for (text, at) in [
        ("0", Some(0)),
        ("4294967295", Some(u32::MAX)),
        ("4294967296", None),
        ("-1", None),
        ("1.0", None),
        ("\"1\"", None),
    ] {
        assert!(rt; position(rt.alloc(), text)? == at, "{text}");
    }
    Ok(())
}

#[test]
fn an_object_has_its_fields_and_no_others(rt: HostRuntime) -> Result<(), Fail> {
    let json = object(rt.alloc(), "\"int\"")?;
    assert!(rt; has_members(&json, 1));
    assert!(rt; !has_members(&json, 0));
    assert!(rt; counted(&json, "a") == 1);
    assert!(rt; counted(&json, "b") == 0);
    assert!(rt; text_field(&json, "a") == Some("int"));
    assert!(rt; type_field(&json, "a") == Some(ColumnType::Int));
    assert!(rt; list_field(&json, "a").is_none());
    Ok(())
}

fn repair(alloc: Global, text: &str, name: &str) -> Result<Option<Repair>, Fail> {
    let json = object(alloc, text)?;
    Ok(field_or(alloc, &json, name, Repair::Zero)?)
}

#[test]
fn a_field_may_be_missing(rt: HostRuntime) -> Result<(), Fail> {
    let alloc = rt.alloc();
    assert!(rt; repair(alloc, "\"null\"", "a")? == Some(Repair::Null));
    assert!(rt; repair(alloc, "\"null\"", "b")? == Some(Repair::Zero));
    assert!(rt; repair(alloc, "null", "a")?.is_none());
    assert!(rt; repair_word(Repair::Zero) == "zero");
    assert!(rt; type_word(ColumnType::Fixed) == "fixed");
    Ok(())
}
