//! Numbers and truths, read from a text.
ghost use Rattle.std.specs.Prelude.{◌≡◌, ◌-◌, ◌+◌, ◌*◌, ◌^◌, ◌<◌, ◌≤◌, min, length, IsTrue, IfSome};
ghost use Rattle.std.specs.List.{list_all, prefix_len};
ghost use Rattle.value_types.specs.Names.{is_digit};
ghost use Rattle.value_types.specs.Numbers as spec;

use crate::name::is_digit;

/// The text without its sign, and whether the sign is `-`.
fn split_sign(text: &[u8]) -> (bool, &[u8])
    ensures sign { result.0 ≡ spec.is_negative text.now }
    ensures rest { result.1.now ≡ spec.unsigned text.now }
{
    match text.split_first() {
        Some((b'-', rest)) => (true, rest),
        Some((b'+', rest)) => (false, rest),
        _ => (false, text),
    }
}

fn all_digits(text: &[u8]) -> bool
    ensures { result ≡ list_all is_digit text.now }
{
    text.iter().all(|byte| is_digit(*byte))
}

fn are_digits(text: &[u8]) -> bool
    ensures { result ≡ spec.are_digits text.now }
{
    match text.split_first() {
        Some((first, rest)) => is_digit(*first) && all_digits(rest),
        None => false,
    }
}

/// How many digits the text begins with.
#[tactic(auto, using(crate::proofs::Digits::fronts))]
fn digits_in_front(text: &[u8]) -> usize
    ensures value { result ≡ prefix_len is_digit text.now }
    ensures bound { result ≤ length text.now }
{
    for (place, byte) in text.iter().enumerate() {
        if !is_digit(*byte) {
            return place;
        }
    }
    text.len()
}

/// The number that digits write, or the last one of u64 where it is greater.
fn number(digits: &[u8]) -> u64
    ensures { result ≡ min (spec.number digits.now) (2 ^ 64 - 1) }
{
    let mut n: u64 = 0;
    for digit in digits {
        n = n
            .saturating_mul(10)
            .saturating_add(u64::from(digit.saturating_sub(b'0')));
    }
    n
}

fn signed(negative: bool, size: u128) -> i128
    requires { size < 2 ^ 90 }
    ensures { result ≡ spec.signed negative size }
{
    if negative {
        -(size as i128)
    } else {
        size as i128
    }
}

fn in_i64(n: i128) -> Option<i64>
    ensures { result ≡ spec.in_i64 n }
{
    i64::try_from(n).ok()
}

/// The number of an Int's text, where it is one that an i64 has.
///
/// - Shape: a sign or none, and one or more digits, of which any number may be leading zeros.
/// - Source: docs/FORMATS.md, "Values and row ids".
#[tactic(auto, unfolding(crate::specs::Numbers::int_of))]
pub fn read_int(text: &[u8]) -> Option<i64>
    ensures { result ≡ spec.int_of text.now }
{
    let (negative, digits) = split_sign(text);
    if !are_digits(digits) {
        return None;
    }
    in_i64(signed(negative, u128::from(number(digits))))
}

/// The ten-thousandths of one at the last of so many places after the point.
fn weight(places: usize) -> u64
    requires { places ≤ 4 }
    ensures value { result ≡ 10 ^ (4 - places) }
    ensures bound { result ≤ 10000 }
{
    match places {
        0 => 10_000,
        1 => 1000,
        2 => 100,
        3 => 10,
        _ => 1,
    }
}

#[tactic(auto, using(crate::proofs::Digits::digits))]
fn short_number(digits: &[u8]) -> u64
    requires short { length digits.now ≤ 4 }
    requires digits { IsTrue (spec.are_digits digits.now) }
    ensures value { result ≡ spec.number digits.now }
    ensures bound { result < 10000 }
{
    number(digits)
}

/// The ten-thousandths that follow the whole part.
fn fraction(text: &[u8]) -> Option<u64>
    ensures value { result ≡ spec.fraction text.now }
    ensures bound { IfSome result (λ part. part < 2 ^ 32) }
{
    match text.split_first() {
        None => Some(0),
        Some((b'.', digits)) => {
            if !are_digits(digits) || digits.len() > 4 {
                return None;
            }
            Some(short_number(digits) * weight(digits.len()))
        }
        Some(_) => None,
    }
}

/// A whole part and ten-thousandths as one count.
#[tactic(auto, using(crate::proofs::Digits::last_of_u64))]
fn counted(negative: bool, whole: &[u8], part: u64) -> Option<i64>
    requires { part < 2 ^ 32 }
    ensures { result ≡ spec.counted negative (spec.number whole.now) (Some part) }
{
    let count = u128::from(number(whole)) * 10_000 + u128::from(part);
    in_i64(signed(negative, count))
}

/// The number of a Fixed's text, where it is one whose count an i64 has.
///
/// - Shape: a sign or none, digits, and maybe a point and one to four digits.
/// - Unit: ten-thousandths, so `-0.5` gives -5000.
/// - Source: docs/FORMATS.md, "Values and row ids".
#[tactic(auto, unfolding(crate::specs::Numbers::fixed_of))]
pub fn read_fixed(text: &[u8]) -> Option<i64>
    ensures { result ≡ spec.fixed_of text.now }
{
    let (negative, size) = split_sign(text);
    let (whole, rest) = size.split_at(digits_in_front(size));
    if !are_digits(whole) {
        return None;
    }
    match fraction(rest) {
        Some(part) => counted(negative, whole, part),
        None => None,
    }
}

/// The truth that a text of `true` or `false` in any ASCII case says.
///
/// - Source: docs/FORMATS.md, "Values and row ids".
#[tactic(auto, unfolding(crate::specs::Numbers::bool_of))]
pub fn read_bool(text: &[u8]) -> Option<bool>
    ensures { result ≡ spec.bool_of text.now }
{
    if text.eq_ignore_ascii_case(b"true") {
        return Some(true);
    }
    if text.eq_ignore_ascii_case(b"false") {
        return Some(false);
    }
    None
}

/// A whole number in ten-thousandths, where that fits: 2 becomes 20000.
pub fn widen(whole: i64) -> Option<i64>
    ensures { result ≡ spec.widened whole }
{
    whole.checked_mul(10_000)
}
