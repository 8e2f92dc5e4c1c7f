ghost use Rattle.std.specs.Prelude.{◌≡◌, ◌++◌, OnOk, OnErr};
ghost use Rattle.std.specs.Fmt.{signed_decimal};

use crate::Memory;
use itoa::Buffer;

/// Appends bytes. If memory runs out, nothing is appended.
pub fn put_bytes(out: &mut Vec<u8>, bytes: &[u8]) -> Result<(), Memory>
    ensures ok { OnOk result (out.new.items ≡ out.old.items ++ bytes.now) }
    ensures err { OnErr result (out.new.items ≡ out.old.items) }
{
    out.extend_from_slice(bytes)?;
    Ok(())
}

/// Appends a number in decimal, a negative one with `-`. It takes no memory of its own. If memory runs out, nothing is
/// appended.
pub fn put_decimal(out: &mut Vec<u8>, value: i64) -> Result<(), Memory>
    ensures ok { OnOk result (out.new.items ≡ out.old.items ++ signed_decimal value) }
    ensures err { OnErr result (out.new.items ≡ out.old.items) }
{
    let mut digits = Buffer::new();
    put_bytes(out, digits.format(value).as_bytes())
}
