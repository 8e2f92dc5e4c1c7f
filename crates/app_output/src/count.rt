ghost use Rattle.std.specs.Prelude.{◌≡◌, ◌++◌, OnOk, decimal};

use cf_types::Memory;

/// Appends a number in decimal.
pub fn put_count(line: &mut Vec<u8>, count: u64) -> Result<(), Memory>
    ensures { OnOk result (line.new.items ≡ line.old.items ++ decimal count) }
{
    let digits = format!(in *line.allocator(); "{count}")?;
    line.extend_from_slice(digits.as_bytes())?;
    Ok(())
}
