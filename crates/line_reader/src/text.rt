//! Lines of bytes that are all there, and blank lines.
ghost use Rattle.std.specs.Prelude.{◌≡◌, ◌<◌, ◌∷◌, [], length, IfNone, IfSome};
ghost use Rattle.std.specs.List.{list_all};
ghost use Rattle.line_reader.specs.Blanks.{is_space, is_blank};
ghost use Rattle.line_reader.specs.Cut.{lines_of};

use memchr::memchr;

fn is_space(byte: u8) -> bool
    ensures { result ≡ is_space byte }
{
    byte == b' ' || byte == b'\t' || byte == b'\r'
}

/// Whether a line has only spaces, tabs and carriage returns.
pub fn is_blank(line: &[u8]) -> bool
    ensures { result ≡ is_blank line.now }
{
    line.iter().all(|byte| is_space(*byte))
}

/// The first line of some bytes, and the bytes after it. There is none where there are no bytes.
///
/// - Source: docs/FORMATS.md, "Lines of a stream".
pub fn split_line(bytes: &[u8]) -> Option<(&[u8], &[u8])>
    ensures none { IfNone result (bytes.now ≡ []) }
    ensures lines { IfSome result (λ p. lines_of bytes.now ≡ p.0.now ∷ lines_of p.1.now) }
    ensures shorter { IfSome result (λ p. length p.1.now < length bytes.now) }
{
    if bytes.is_empty() {
        return None;
    }
    match memchr(b'\n', bytes) {
        Some(at) => Some((&bytes[..at], &bytes[at + 1..])),
        None => Some((bytes, &[])),
    }
}
