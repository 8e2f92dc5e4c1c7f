//! Lines that stand for many lines.

use cf_types::Memory;

/// Appends the lines of a form: `#` stands for the number, `+` for the next one, `>` for a step of indent for each
/// number up to it, and `|` ends a line.
pub fn put_form(text: &mut Vec<u8>, form: &str, number: u64) -> Result<(), Memory> {
    for byte in form.bytes() {
        match byte {
            b'#' => put_number(text, number)?,
            b'+' => put_number(text, number.saturating_add(1))?,
            b'>' => put_indent(text, number)?,
            b'|' => text.push(b'\n')?,
            other => text.push(other)?,
        }
    }
    text.push(b'\n')?;
    Ok(())
}

fn put_number(text: &mut Vec<u8>, number: u64) -> Result<(), Memory> {
    let digits = format!(in *text.allocator(); "{number}")?;
    text.extend_from_slice(digits.as_bytes())?;
    Ok(())
}

fn put_indent(text: &mut Vec<u8>, steps: u64) -> Result<(), Memory> {
    for _ in 0..steps {
        text.extend_from_slice(b"  ")?;
    }
    Ok(())
}
