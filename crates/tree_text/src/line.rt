ghost use Rattle.std.specs.Prelude.{◌≡◌, ◌++◌, [], OnOk, OnErr};
ghost use Rattle.run_rules.specs.Tree.{dev_text};
ghost use Rattle.tree_text.specs.Parts.{place_text, state_text};

use crate::parts::{put_held, put_indent, put_mark};
use cf_types::{DevLine, Memory, put_bytes, put_decimal};

/// How many bytes are enough for most lines.
const USUAL: usize = 96;

/// Appends where a device is, and by which row it came.
fn put_place(out: &mut Vec<u8>, line: &DevLine) -> Result<(), Memory>
    ensures { OnOk result (out.new.items ≡ out.old.items ++ place_text line.now) }
{
    put_bytes(out, line.name.bytes())?;
    put_bytes(out, b" at ")?;
    put_bytes(out, line.parent.bytes())?;
    put_bytes(out, b" row ")?;
    put_decimal(out, i64::from(line.row))
}

/// Appends what there is to say of a device: whether it sleeps, whether it is to go, who holds it.
fn put_state(out: &mut Vec<u8>, line: &DevLine) -> Result<(), Memory>
    ensures { OnOk result (out.new.items ≡ out.old.items ++ state_text line.now) }
{
    put_mark(out, line.asleep, b" asleep")?;
    put_mark(out, line.condemned, b" condemned")?;
    put_held(out, line.holders.items())
}

/// Appends the line of a device. If memory runs out, some of it may have been appended.
#[tactic(auto, unfolding(run_rules::specs::Tree::dev_text))]
fn put_line(out: &mut Vec<u8>, line: &DevLine) -> Result<(), Memory>
    ensures { OnOk result (out.new.items ≡ out.old.items ++ dev_text line.now) }
{
    put_indent(out, line.depth)?;
    put_place(out, line)?;
    put_state(out, line)
}

/// Puts the line of a device into an empty buffer. If memory runs out, the buffer is empty again.
fn put_alone(out: &mut Vec<u8>, line: &DevLine) -> Result<(), Memory>
    requires empty { out.old.items ≡ [] }
    ensures ok { OnOk result (out.new.items ≡ dev_text line.now) }
    ensures err { OnErr result (out.new.items ≡ []) }
{
    match put_line(out, line) {
        Ok(()) => Ok(()),
        Err(_) => {
            out.clear();
            Err(Memory)
        }
    }
}

/// Appends the line of a device, without its newline. If memory runs out, nothing is appended. See drvctl(8) for the
/// tree.
pub fn put_dev(line: &DevLine, out: &mut Vec<u8>) -> Result<(), Memory>
    ensures ok { OnOk result (out.new.items ≡ out.old.items ++ dev_text line.now) }
    ensures err { OnErr result (out.new.items ≡ out.old.items) }
{
    if out.is_empty() {
        return put_alone(out, line);
    }
    let mut text = Vec::with_capacity(*out.allocator(), USUAL)?;
    put_line(&mut text, line)?;
    out.extend_from_slice(&text)?;
    Ok(())
}
