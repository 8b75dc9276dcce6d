//! Which numbers `serde_json` reads: those that aren't too large for a float.
ghost use Rattle.std.specs.Prelude.{◌≡◌, ◌<◌, ◌==◌, length, slice_index, is_some, true, false, IsTrue};
ghost use Rattle.serde_json.specs.Read.{float_of, number_of, number_from};

use fast_float::Numeral;

#[inline(always)]
fn has_minus(text: &[u8]) -> bool
    ensures value { result ≡ (slice_index text.now 0 == 45) }
    ensures some { IsTrue result → 0 < length text.now }
{
    !text.is_empty() && text[0] == b'-'
}

#[inline(always)]
fn has_finite_float(numeral: &Numeral<'_>, negative: bool) -> bool
    ensures { result ≡ is_some (float_of negative numeral.now) }
{
    numeral.to_float::<f64>(negative).is_finite()
}

#[inline(always)]
fn positive_is_read(numeral: &Numeral<'_>) -> bool
    ensures { result ≡ is_some (number_from false numeral.now) }
{
    match numeral.to_u64() {
        Some(_) => true,
        None => has_finite_float(numeral, false),
    }
}

#[inline(always)]
fn negative_is_read(numeral: &Numeral<'_>) -> bool
    ensures { result ≡ is_some (number_from true numeral.now) }
{
    if let Some(number) = numeral.to_i64(true) {
        if number < 0 {
            return true;
        }
    }
    has_finite_float(numeral, true)
}

/// Whether the text of a number is read.
#[inline(never)]
pub fn number_is_read(text: &str) -> bool
    ensures { result ≡ is_some (number_of text.now) }
{
    let bytes = text.as_bytes();
    if has_minus(bytes) {
        negative_is_read(&Numeral::scan(&bytes[1..]))
    } else {
        positive_is_read(&Numeral::scan(bytes))
    }
}
