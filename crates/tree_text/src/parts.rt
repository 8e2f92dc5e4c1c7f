//! The pieces of a line. If memory runs out, some of a piece may have been appended.
ghost use Rattle.std.specs.Prelude.{◌≡◌, ◌++◌, OnOk, codes, decimal, flat_map, nat_lt};
ghost use Rattle.run_rules.specs.Tree.{marked_by, hold_text, held_text};
ghost use Rattle.cf_types.specs.Numbers.{below};

use cf_types::{Hold, Memory, put_bytes, put_decimal};

/// Appends two spaces for each level.
pub fn put_indent(out: &mut Vec<u8>, depth: u32) -> Result<(), Memory>
    ensures { OnOk result (out.new.items ≡ out.old.items ++ flat_map (λ _. codes "  ") (below depth)) }
{
    for _level in 0..depth {
        put_bytes(out, b"  ")?;
    }
    Ok(())
}

/// Appends a mark, if it is set.
pub fn put_mark(out: &mut Vec<u8>, mark: bool, text: &[u8]) -> Result<(), Memory>
    ensures { OnOk result (out.new.items ≡ out.old.items ++ marked_by mark text.now) }
{
    if mark { put_bytes(out, text) } else { Ok(()) }
}

/// Appends how many references a caller has, if they are more than one.
fn put_count(out: &mut Vec<u8>, count: u8) -> Result<(), Memory>
    ensures { OnOk result (out.new.items ≡ out.old.items ++ marked_by (nat_lt 1 count) (codes "*" ++ decimal count)) }
{
    if count <= 1 {
        return Ok(());
    }
    put_bytes(out, b"*")?;
    put_decimal(out, i64::from(count))
}

/// Appends what a caller holds.
fn put_hold(out: &mut Vec<u8>, hold: Hold) -> Result<(), Memory>
    ensures { OnOk result (out.new.items ≡ out.old.items ++ hold_text hold) }
{
    put_bytes(out, b" ")?;
    put_decimal(out, i64::from(hold.caller))?;
    put_count(out, hold.count)?;
    put_mark(out, hold.sole, b"!")
}

/// Appends what each caller holds.
fn put_holds(out: &mut Vec<u8>, holders: &[Hold]) -> Result<(), Memory>
    ensures { OnOk result (out.new.items ≡ out.old.items ++ flat_map hold_text holders.now) }
{
    for hold in holders {
        put_hold(out, *hold)?;
    }
    Ok(())
}

/// Appends who holds the device, if anybody does.
pub fn put_held(out: &mut Vec<u8>, holders: &[Hold]) -> Result<(), Memory>
    ensures { OnOk result (out.new.items ≡ out.old.items ++ held_text holders.now) }
{
    match holders {
        [] => Ok(()),
        _ => {
            put_bytes(out, b" held")?;
            put_holds(out, holders)
        }
    }
}
