ghost use Rattle.std.specs.Prelude.{◌≡◌, ◌++◌, ◌≤◌, IfOk, OnOk};
ghost use Rattle.cf_types.specs.Lines.{ended, text_of};
ghost use Rattle.load_maker.specs.Generated as generated;

use cf_types::{Memory, Text, put_decimal};
use std::alloc::Global;

/// The bus, which every machine has.
const BUS: &[u8] = b"spot b root root\nmatch bus b 10\n";

/// Appends the line of a spot on the bus, which is found at the slot of its number.
fn put_spot(out: &mut Vec<u8>, number: u32) -> Result<(), Memory>
    ensures { OnOk result (out.new.items ≡ out.old.items ++ ended (generated.spot_line number)) }
{
    out.extend_from_slice(b"spot s")?;
    put_decimal(out, i64::from(number))?;
    out.extend_from_slice(b" b bus slot=")?;
    put_decimal(out, i64::from(number))?;
    out.push(b'\n')?;
    Ok(())
}

/// Appends the line that says how well a disk matches the spot: not at all for every third one, beginning with the
/// first.
fn put_match(out: &mut Vec<u8>, number: u32) -> Result<(), Memory>
    ensures { OnOk result (out.new.items ≡ out.old.items ++ ended (generated.match_line number)) }
{
    out.extend_from_slice(b"match disk s")?;
    put_decimal(out, i64::from(number))?;
    out.extend_from_slice(b" ")?;
    put_decimal(out, i64::from(number % 3))?;
    out.push(b'\n')?;
    Ok(())
}

/// Appends the two lines of a spot.
fn put_lines(out: &mut Vec<u8>, number: u32) -> Result<(), Memory>
    ensures { OnOk result (out.new.items ≡ out.old.items ++ text_of (generated.spot_lines number)) }
{
    put_spot(out, number)?;
    put_match(out, number)
}

/// The generated machine: a bus with this many spots, 1 to 1,000.
pub fn machine_text(alloc: Global, n: u32) -> Result<Text, Memory>
    requires some { 1 ≤ n }
    requires few { n ≤ 1000 }
    ensures { IfOk result (λ text. text ≡ generated.machine_text n) }
{
    let mut text = Vec::from_slice(alloc, BUS)?;
    for number in 0..n {
        put_lines(&mut text, number)?;
    }
    Ok(Text::from_vec(text))
}
