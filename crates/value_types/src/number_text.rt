//! Numbers, written as text.
ghost use Rattle.std.specs.Prelude.{◌≡◌, ◌∷◌, ◌++◌, ◌<◌, decimal, OnOk};
ghost use Rattle.std.specs.Fmt.{signed_decimal};
ghost use Rattle.value_types.specs.Text as spec;

use crate::memory::NoMemory;
use crate::words::Words;
use itoa::Buffer;
use std::alloc::Global;

/// Appends an Int.
pub fn push_int(alloc: Global, out: &mut Words, n: i64) -> Result<(), NoMemory>
    ensures { OnOk result (out.new ≡ out.old ++ signed_decimal n) }
{
    let mut buffer = Buffer::new();
    out.push_text(alloc, buffer.format(n))
}

/// Appends a size in decimal.
pub fn push_decimal(alloc: Global, out: &mut Words, n: u64) -> Result<(), NoMemory>
    ensures { OnOk result (out.new ≡ out.old ++ decimal n) }
{
    let mut buffer = Buffer::new();
    out.push_text(alloc, buffer.format(n))
}

/// Appends ten-thousandths, with their sign.
pub fn push_fixed(alloc: Global, out: &mut Words, n: i64) -> Result<(), NoMemory>
    ensures { OnOk result (out.new ≡ out.old ++ spec.fixed_text n) }
{
    if n < 0 {
        out.push_text(alloc, "-")?;
    }
    let size = n.unsigned_abs();
    push_decimal(alloc, out, size / 10_000)?;
    push_four(alloc, out, size % 10_000)
}

/// Appends a point and four digits.
fn push_four(alloc: Global, out: &mut Words, n: u64) -> Result<(), NoMemory>
    requires { n < 10000 }
    ensures { OnOk result (out.new ≡ out.old ++ 46 ∷ spec.four_digits n) }
{
    out.push_char(alloc, '.')?;
    out.push_char(alloc, digit(n / 1000))?;
    out.push_char(alloc, digit(n / 100 % 10))?;
    out.push_char(alloc, digit(n / 10 % 10))?;
    out.push_char(alloc, digit(n % 10))
}

fn digit(d: u64) -> char
    requires { d < 10 }
    ensures { result ≡ spec.digit d }
{
    char::from(b'0' + d as u8)
}
