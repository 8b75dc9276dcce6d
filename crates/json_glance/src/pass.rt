//! Passing over the value of a text, a token at a time.
ghost use Rattle.std.specs.Prelude.{◌≡◌, ◌<◌, length, IfOk, OnOk, OnErr, Some, None, option_map, if◌then◌else◌};
ghost use Rattle.std.specs.Str.{bytes_eq};
ghost use Rattle.json.specs.Json.{value, items, members};
ghost use Rattle.serde_json.specs.Data.{no_members};
ghost use Rattle.serde_json.specs.Read.{of_json, of_items, of_members, converted};
ghost use Rattle.json_glance.specs.Passed.{Passes, PassesMembers, rest};

use crate::number::number_is_read;
use json::{Invalid, Reader, Token};

/// What was seen of a value that was passed.
#[derive(Clone, Copy, Drop)]
pub struct Seen<'a> {
    /// The text that the value is.
    pub text: Option<&'a str>,
    /// The text at one of its fields.
    pub field: Option<&'a str>,
}

impl<'a> Seen<'a> {
    #[inline(always)]
    fn of_text(text: &'a str) -> Seen<'a>
        ensures text { option_map (λ t. t.now) result.text ≡ Some text.now }
        ensures field { option_map (λ t. t.now) result.field ≡ None }
    {
        Seen {
            text: Some(text),
            field: None,
        }
    }

    #[inline(always)]
    fn of_field(field: Option<&'a str>) -> Seen<'a>
        ensures text { option_map (λ t. t.now) result.text ≡ None }
        ensures field { option_map (λ t. t.now) result.field
            ≡ option_map (λ t. t.now) field.entry }
    {
        Seen { text: None, field }
    }
}

/// The text of a later member where its key is the name, else what was found before.
#[inline(always)]
fn later<'a>(
    key: &str,
    name: &str,
    text: Option<&'a str>,
    before: Option<&'a str>,
) -> Option<&'a str>
    ensures { option_map (λ t. t.now) result ≡ (if bytes_eq key.now name.now
        then option_map (λ t. t.now) text.entry else option_map (λ t. t.now) before.entry) }
{
    if key == name { text } else { before }
}

/// Passes over the next value, and tells what it is and what its field of that name is, as far as
/// they are texts. Arrays and objects may nest `depth` deep.
///
/// - Error: `Invalid` exactly where `serde_json` reads no value from these tokens.
#[cycle(pass)]
#[inline(always)]
pub fn pass<'a>(reader: &mut Reader<'a>, depth: usize, name: &str) -> Result<Seen<'a>, Invalid>
    ensures ok { IfOk result (λ seen. Passes depth name.now reader.old seen reader.new) }
    ensures shorter { OnOk result (length reader.new < length reader.old) }
    ensures err { OnErr result (converted of_json (value depth reader.old) ≡ None) }
{
    let token = reader.next().ok_or(Invalid)?;
    match token {
        Token::String(text) => Ok(Seen::of_text(text)),
        Token::Number(text) => {
            if !number_is_read(text) {
                return Err(Invalid);
            }
            Ok(Seen::of_field(None))
        }
        Token::Bool(_) | Token::Null => Ok(Seen::of_field(None)),
        Token::EndObject | Token::EndArray | Token::Key(_) | Token::Bad => Err(Invalid),
        Token::BeginArray => {
            if depth == 0 {
                return Err(Invalid);
            }
            pass_items(reader, depth - 1, name)?;
            Ok(Seen::of_field(None))
        }
        Token::BeginObject => {
            if depth == 0 {
                return Err(Invalid);
            }
            let field = pass_members(reader, depth - 1, name)?;
            Ok(Seen::of_field(field))
        }
    }
}

#[cycle(pass)]
#[inline(never)]
fn pass_items(reader: &mut Reader<'_>, depth: usize, name: &str) -> Result<(), Invalid>
    ensures ok { OnOk result (rest (converted of_items
        (items (value depth) (length reader.old) reader.old)) ≡ Some reader.new) }
    ensures shorter { OnOk result (length reader.new < length reader.old) }
    ensures err { OnErr result (converted of_items
        (items (value depth) (length reader.old) reader.old) ≡ None) }
{
    while !reader.take_end_array() {
        pass(reader, depth, name)?;
    }
    Ok(())
}

#[cycle(pass)]
#[inline(never)]
fn pass_members<'a>(
    reader: &mut Reader<'a>,
    depth: usize,
    name: &str,
) -> Result<Option<&'a str>, Invalid>
    ensures ok { IfOk result (λ found.
        PassesMembers depth name.now reader.old (option_map (λ t. t.now) found) reader.new) }
    ensures shorter { OnOk result (length reader.new < length reader.old) }
    ensures err { OnErr result (converted (λ ms. of_members ms no_members)
        (members (value depth) (length reader.old) reader.old) ≡ None) }
{
    let mut found = None;
    while let Some(key) = reader.next_key()? {
        let seen = pass(reader, depth, name)?;
        found = later(key, name, seen.text, found);
    }
    Ok(found)
}
