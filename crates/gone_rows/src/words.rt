//! Which instances a word names.
ghost use Rattle.std.specs.Prelude.{◌≡◌};
ghost use Rattle.cf_text.specs.Split.{split_of};
ghost use Rattle.gone_rows.specs.Gone.{begins, has_unit, is_meant, is_star, names_instance};

use cf_text::{Split, split_unit};
use cf_types::{Stmt, UnitMark};

/// Whether the front of a word, of so many bytes, is this name.
pub fn begins(word: &[u8], cut: usize, name: &[u8]) -> bool
    ensures { result ≡ begins word.now cut name.now }
{
    word.split_at(cut.min(word.len())).0 == name
}

/// Whether a mark has a unit: a star has each.
fn has_unit(mark: UnitMark, unit: u32) -> bool
    ensures { result ≡ has_unit mark unit }
{
    match mark {
        UnitMark::Fixed(own) => own == unit,
        UnitMark::Star => true,
    }
}

/// Whether a mark is a star.
fn is_star(mark: UnitMark) -> bool
    ensures { result ≡ is_star mark }
{
    matches!(mark, UnitMark::Star)
}

/// Whether a word is the name of a driver with a unit or a star that the mark has.
fn is_meant(word: &[u8], base: &[u8], mark: UnitMark) -> bool
    ensures { result ≡ is_meant word.now base.now mark (split_of word.now) }
{
    match split_unit(word) {
        Split::Unit { cut, unit } => begins(word, cut, base) && has_unit(mark, unit),
        Split::Star { cut } => begins(word, cut, base) && is_star(mark),
        _ => false,
    }
}

/// Whether a word names an instance: it is its driver, or a device that it may be, or the instance as it is written.
pub fn names_instance(word: &[u8], stmt: &Stmt) -> bool
    ensures { result ≡ names_instance word.now stmt.now }
{
    match stmt {
        Stmt::Inst { base, mark, .. } => {
            base.bytes() == word || is_meant(word, base.bytes(), *mark)
        }
        _ => false,
    }
}
