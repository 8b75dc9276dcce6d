//! Texts without what stands at their ends.
ghost use Rattle.std.specs.Prelude.{◌≡◌, ◌==◌};
ghost use Rattle.csv_load.specs.Ends as spec;

fn without_front(text: &[u8], byte: u8) -> &[u8]
    ensures { result.now ≡ spec.without_front (λ b. b == byte) text.now }
{
    let mut rest = text;
    while let Some((first, after)) = rest.split_first() {
        if *first != byte {
            break;
        }
        rest = after;
    }
    rest
}

/// A text without these bytes at its end.
pub(crate) fn without_end(text: &[u8], byte: u8) -> &[u8]
    ensures { result.now ≡ spec.without_end (λ b. b == byte) text.now }
{
    let mut rest = text;
    while let Some((last, before)) = rest.split_last() {
        if *last != byte {
            break;
        }
        rest = before;
    }
    rest
}

/// A field without spaces at both its ends.
pub(crate) fn stripped(field: &[u8]) -> &[u8]
    ensures { result.now ≡ spec.stripped field.now }
{
    without_end(without_front(field, b' '), b' ')
}
