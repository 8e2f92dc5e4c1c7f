ghost use Rattle.std.specs.Prelude.{◌≡◌, ◌++◌, OnOk};
ghost use Rattle.config_rules.specs.Listing.{pseudo_line, item_value, item_line, file_system_line, warning_line, kind_text};

use cf_types::{Item, Memory, Name, Pseudo, WarnKind, Warning, put_decimal};

pub fn put_pseudo(out: &mut Vec<u8>, pseudo: &Pseudo) -> Result<(), Memory>
    ensures { OnOk result (out.new.items ≡ out.old.items ++ pseudo_line pseudo.now) }
{
    out.extend_from_slice(b"pseudo ")?;
    out.extend_from_slice(pseudo.name.bytes())?;
    out.push(b' ')?;
    put_decimal(out, i64::from(pseudo.count))
}

fn put_value(out: &mut Vec<u8>, item: &Item) -> Result<(), Memory>
    ensures { OnOk result (out.new.items ≡ out.old.items ++ item_value item.now) }
{
    let Some(value) = &item.value else {
        return Ok(());
    };
    if item.plus {
        out.push(b'+')?;
    }
    out.push(b'=')?;
    out.extend_from_slice(value.items())?;
    Ok(())
}

/// An option or a makeoption after its word.
pub fn put_item(out: &mut Vec<u8>, word: &[u8], item: &Item) -> Result<(), Memory>
    ensures { OnOk result (out.new.items ≡ out.old.items ++ item_line word.now item.now) }
{
    out.extend_from_slice(word)?;
    out.push(b' ')?;
    out.extend_from_slice(item.name.bytes())?;
    put_value(out, item)
}

pub fn put_file_system(out: &mut Vec<u8>, name: &Name) -> Result<(), Memory>
    ensures { OnOk result (out.new.items ≡ out.old.items ++ file_system_line name.now) }
{
    out.extend_from_slice(b"file-system ")?;
    out.extend_from_slice(name.bytes())?;
    Ok(())
}

fn put_kind(out: &mut Vec<u8>, kind: WarnKind) -> Result<(), Memory>
    ensures { OnOk result (out.new.items ≡ out.old.items ++ kind_text kind) }
{
    match kind {
        WarnKind::Nothing => Ok(out.extend_from_slice(b"nothing taken back")?),
        WarnKind::Orphan => Ok(out.extend_from_slice(b"orphan")?),
    }
}

pub fn put_warning(out: &mut Vec<u8>, warning: &Warning) -> Result<(), Memory>
    ensures { OnOk result (out.new.items ≡ out.old.items ++ warning_line warning.now) }
{
    out.extend_from_slice(b"warning ")?;
    out.extend_from_slice(warning.file.items())?;
    out.push(b':')?;
    put_decimal(out, i64::from(warning.line))?;
    out.push(b' ')?;
    put_kind(out, warning.kind)
}
