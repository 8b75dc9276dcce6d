//! The words of a command line.
ghost use Rattle.std.specs.Prelude.{◌≡◌, map, string_bytes, option_map};
ghost use Rattle.vizier_cli.specs.Words.{is_file, picks_option, serial_words};

fn is_file(word: &str) -> bool
    ensures { result ≡ is_file word.now }
{
    match word.as_bytes().first() {
        Some(first) => *first != b'-' && word.len() <= 255,
        None => false,
    }
}

/// The picks file of the options, if they are options.
fn picks_option(options: &[String]) -> Option<Option<&str>>
    ensures { option_map (λ file. option_map (λ text. text.now) file) result
        ≡ picks_option (map string_bytes options.now) }
{
    match options {
        [] => Some(None),
        [option, file] if option.as_str() == "--picks" && is_file(file.as_str()) => {
            Some(Some(file.as_str()))
        }
        _ => None,
    }
}

/// The picks file of the words of `serial`, if they are these.
///
/// - Source: docs/FORMATS.md, "Statuses and words".
pub fn serial_words(words: &[String]) -> Option<Option<&str>>
    ensures { option_map (λ file. option_map (λ text. text.now) file) result
        ≡ serial_words (map string_bytes words.now) }
{
    match words.split_first() {
        Some((word, options)) if word.as_str() == "serial" => picks_option(options),
        _ => None,
    }
}
