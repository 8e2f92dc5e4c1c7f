ghost use Rattle.std.specs.Prelude.{◌≡◌, ◌++◌, OnOk, flat_map};
ghost use Rattle.wait_lines.specs.Waits.{holder_text, wait_text};

use cf_types::{Hold, Memory, Name, put_bytes, put_decimal};

/// Appends the callers that hold a device.
fn put_holders(out: &mut Vec<u8>, holders: &[Hold]) -> Result<(), Memory>
    ensures { OnOk result (out.new.items ≡ out.old.items ++ flat_map holder_text holders.now) }
{
    for hold in holders {
        put_bytes(out, b" ")?;
        put_decimal(out, i64::from(hold.caller))?;
    }
    Ok(())
}

/// Appends the line of a caller that waits until nobody holds a device, without its newline: `1 waits for wd0, held by 2`.
/// If memory runs out, some of it may have been appended.
pub fn put_wait(
    line: &mut Vec<u8>,
    caller: u8,
    device: &Name,
    holders: &[Hold],
) -> Result<(), Memory>
    ensures { OnOk result (line.new.items ≡ line.old.items ++ wait_text caller device.now holders.now) }
{
    put_decimal(line, i64::from(caller))?;
    put_bytes(line, b" waits for ")?;
    put_bytes(line, device.bytes())?;
    put_bytes(line, b", held by")?;
    put_holders(line, holders)
}
