//! Which negation takes an instance back.
ghost use Rattle.std.specs.Prelude.{◌≡◌, true};
ghost use Rattle.std.specs.Option.{option_copied, option_map_or};
ghost use Rattle.config_rules.specs.Select.{names, same_at, same_mark, same_number};
ghost use Rattle.gone_rows.specs.Gone.{taken_by};

use cf_types::{AtSpec, Placed, Stmt, UnitMark};

fn same_mark(one: UnitMark, other: UnitMark) -> bool
    ensures { result ≡ same_mark one other }
{
    match (one, other) {
        (UnitMark::Fixed(one), UnitMark::Fixed(other)) => one == other,
        (UnitMark::Star, UnitMark::Star) => true,
        _ => false,
    }
}

fn same_number(one: Option<u32>, other: Option<u32>) -> bool
    ensures { result ≡ same_number one other }
{
    match (one, other) {
        (Some(one), Some(other)) => one == other,
        (None, None) => true,
        _ => false,
    }
}

/// Whether two attachments are written alike.
fn same_at(one: &AtSpec, other: &AtSpec) -> bool
    ensures { result ≡ same_at one.now other.now }
{
    match (one, other) {
        (AtSpec::Root, AtSpec::Root) => true,
        (
            AtSpec::Named { base, unit },
            AtSpec::Named {
                base: name,
                unit: number,
            },
        ) => base.bytes() == name.bytes() && same_number(*unit, *number),
        _ => false,
    }
}

/// Whether a negation has no attachment, or this one.
fn is_at(at: &Option<AtSpec>, other: &AtSpec) -> bool
    ensures { result ≡ option_map_or (λ a. same_at a other.now) at.now true }
{
    match at {
        Some(at) => same_at(at, other),
        None => true,
    }
}

/// Whether a negation names an instance.
fn names(negation: &Stmt, stmt: &Stmt) -> bool
    ensures { result ≡ names negation.now stmt.now }
{
    let Stmt::Inst {
        base,
        mark,
        at: written,
        ..
    } = stmt
    else {
        return false;
    };
    match negation {
        Stmt::NoInst {
            base: name,
            mark: wanted,
            at,
        } => name.bytes() == base.bytes() && same_mark(*wanted, *mark) && is_at(at, written),
        Stmt::NoDevice { at } => same_at(at, written),
        _ => false,
    }
}

/// The first of the later statements that takes a statement back.
pub fn taken_by<'a>(stmt: &Stmt, later: &'a [Placed]) -> Option<&'a Placed>
    ensures { option_copied result ≡ taken_by stmt.now later.now }
{
    later.iter().find(|statement| names(&statement.stmt, stmt))
}
