ghost use Rattle.std.specs.Prelude.{◌≡◌, ◌≤◌, if◌then◌else◌, Some, None, min, pos, neg_ℤ, option_map};
ghost use Rattle.std.specs.Str.Parse.{digits_value};
ghost use Rattle.cf_text.specs.Shapes.{are_digits, is_decimal, number, unsigned};
ghost use Rattle.cf_text.specs.NumberRead.{read_of};

/// The least number that may be written.
pub const MIN_NUMBER: i64 = -2_147_483_648;

/// The greatest number that may be written.
pub const MAX_NUMBER: i64 = 4_294_967_295;

/// How far below 0 the least number is.
const MOST_BELOW: u64 = 2_147_483_648;

/// Stands for every number above the greatest.
const TOO_GREAT: u64 = 4_294_967_296;

/// How a chunk reads as a number.
#[derive(Clone, Copy, Debug, PartialEq, Eq)]
pub enum NumberRead {
    /// No number.
    Not,
    /// A number below `MIN_NUMBER` or above `MAX_NUMBER`.
    OutOfRange,
    /// The number.
    Value(i64),
}

/// The number that one or more digits of this radix spell, or `TOO_GREAT` for any greater one.
#[inline(always)]
fn read_digits(bytes: &[u8], radix: u32) -> Option<u64>
    requires low { 2 ≤ radix }
    requires high { radix ≤ 16 }
    ensures { result ≡ (if are_digits radix bytes.now then Some (min (digits_value radix bytes.now) TOO_GREAT) else None) }
{
    if bytes.is_empty() {
        return None;
    }
    let mut value = 0;
    for &byte in bytes {
        let digit = char::from(byte).to_digit(radix)?;
        value = (value * u64::from(radix) + u64::from(digit)).min(TOO_GREAT);
    }
    Some(value)
}

/// The number that decimal digits without a leading zero spell, or `TOO_GREAT` for any greater one.
#[inline]
pub fn read_decimal(bytes: &[u8]) -> Option<u64>
    ensures { result ≡ (if is_decimal bytes.now then Some (min (digits_value 10 bytes.now) TOO_GREAT) else None) }
{
    match bytes {
        [b'0', _, ..] => None,
        _ => read_digits(bytes, 10),
    }
}

/// The number that a chunk without a sign spells, or `TOO_GREAT` for any greater one.
fn read_unsigned(chunk: &[u8]) -> Option<u64>
    ensures { result ≡ option_map (λ n. min n TOO_GREAT) (unsigned chunk.now) }
{
    match chunk {
        [b'0', b'x' | b'X', digits @ ..] => read_digits(digits, 16),
        [b'0', _, ..] => read_digits(&chunk[1..], 8),
        _ => read_digits(chunk, 10),
    }
}

/// What the digits after a `-` spell.
fn read_negative(chunk: &[u8]) -> NumberRead
    ensures { result ≡ read_of (option_map (λ n. neg_ℤ (pos n)) (unsigned chunk.now)) }
{
    match read_unsigned(chunk) {
        None => NumberRead::Not,
        Some(value) => {
            if value > MOST_BELOW {
                NumberRead::OutOfRange
            } else {
                NumberRead::Value(-(value as i64))
            }
        }
    }
}

/// What a chunk without a sign spells.
fn read_positive(chunk: &[u8]) -> NumberRead
    ensures { result ≡ read_of (option_map pos (unsigned chunk.now)) }
{
    match read_unsigned(chunk) {
        None => NumberRead::Not,
        Some(value) => {
            let value = value as i64;
            if value > MAX_NUMBER {
                NumberRead::OutOfRange
            } else {
                NumberRead::Value(value)
            }
        }
    }
}

/// Reads a number of any length: decimal, octal after `0` or hexadecimal after `0x`, optionally with a `-` before it.
/// It is `OutOfRange` below `MIN_NUMBER` and above `MAX_NUMBER`. It takes no memory. See config(5).
pub fn read_number(chunk: &[u8]) -> NumberRead
    ensures { result ≡ read_of (number chunk.now) }
{
    match chunk {
        [b'-', digits @ ..] => read_negative(digits),
        _ => read_positive(chunk),
    }
}
