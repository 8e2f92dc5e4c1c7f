ghost use Rattle.std.specs.Prelude.{◌≡◌, ◌-◌, ◌≤◌, [], ◌∷◌, ◌++◌, length, take, IsTrue};
ghost use Rattle.cf_text.specs.Shapes.{base_len};
ghost use Rattle.cf_text.specs.Split.{Spells, fixed_of, is_marked, split_of};

use crate::is_name;
use crate::number::read_decimal;

/// The greatest unit that may be written.
pub const MAX_UNIT: u32 = 65_535;

/// How a chunk is split into a base and a unit: `cut` is the length of the base, in bytes.
#[derive(Clone, Copy, Debug, PartialEq, Eq)]
pub enum Split {
    /// No unit chunk.
    Not,
    /// A base and the digits of a unit.
    Unit { cut: usize, unit: u32 },
    /// A base and `*`.
    Star { cut: usize },
    /// A base and `?`.
    Any { cut: usize },
    /// A base and a unit above `MAX_UNIT`.
    TooGreat,
}

/// The length of the part of a chunk before the digits at its end, from 0 to the chunk's length. It takes no memory.
#[inline]
pub fn base_len(chunk: &[u8]) -> usize
    ensures len { result ≡ base_len chunk.now }
    ensures within { result ≤ length chunk.now }
{
    let mut cut = chunk.len();
    while cut > 0 && chunk[cut - 1].is_ascii_digit() {
        cut -= 1;
    }
    cut
}

/// Splits off the digits at the end.
fn split_fixed(chunk: &[u8]) -> Split
    ensures split { result ≡ fixed_of (base_len chunk.now) chunk.now }
    ensures spelled { Spells chunk.now result }
{
    let cut = base_len(chunk);
    let (base, digits) = chunk.split_at(cut);
    if !is_name(base) {
        return Split::Not;
    }
    match read_decimal(digits) {
        None => Split::Not,
        Some(unit) => {
            if unit > u64::from(MAX_UNIT) {
                Split::TooGreat
            } else {
                Split::Unit {
                    cut,
                    unit: unit as u32,
                }
            }
        }
    }
}

/// Whether a chunk is a name and this mark after it.
fn is_marked(chunk: &[u8], mark: u8) -> bool
    requires { ¬ mark ≡ 0 }
    ensures marked { result ≡ is_marked mark chunk.now }
    ensures spelled { IsTrue result → chunk.now ≡ take (length chunk.now - 1) chunk.now ++ mark ∷ [] }
{
    match chunk {
        [base @ .., last] => *last == mark && is_name(base),
        [] => false,
    }
}

/// Splits a unit chunk: a name that does not end with a digit and a decimal number, or any name and `*` or `?`.
/// Every other chunk is `Not`, and a number above `MAX_UNIT` is `TooGreat`. It takes no memory. See config(5).
pub fn split_unit(chunk: &[u8]) -> Split
    ensures split { result ≡ split_of chunk.now }
    ensures spelled { Spells chunk.now result }
{
    let cut = chunk.len().saturating_sub(1);
    if is_marked(chunk, b'*') {
        return Split::Star { cut };
    }
    if is_marked(chunk, b'?') {
        return Split::Any { cut };
    }
    split_fixed(chunk)
}
