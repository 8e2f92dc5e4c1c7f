ghost use Rattle.std.specs.Prelude.{◌≡◌};
ghost use Rattle.cf_select.specs.Alike.{attachments_alike, keys_alike};
ghost use Rattle.cf_select.specs.Hashed.{attachment_input, key_input, unit_number};

use std::hash::{Hash, Hasher};

/// What a negation or an instance attaches to, as written.
#[derive(Clone, Copy, PartialEq, Eq)]
pub enum Attachment<'a> {
    Root,
    Named(&'a [u8], Option<u32>),
}

/// Which instances a negation names: those of a base with a unit or starred, those of them with one attachment, or all
/// with one attachment.
#[derive(Clone, Copy, PartialEq, Eq)]
pub enum Named<'a> {
    Unit(&'a [u8], Option<u32>),
    UnitAt(&'a [u8], Option<u32>, Attachment<'a>),
    At(Attachment<'a>),
}

/// A unit as a number; if there is none, a number that is no unit.
#[inline(always)]
fn unit_number(unit: Option<u32>) -> u32
    ensures { result ≡ unit_number unit }
{
    match unit {
        Some(unit) => unit,
        None => u32::MAX,
    }
}

/// Hashed in two writes: the name as one piece, and the unit.
impl<'a> Hash for Attachment<'a> {
    ghost hash_input = { attachment_input };

    ghost respects_eq = { attachments_alike };

    #[inline(always)]
    fn hash<H: Hasher>(&self, state: &mut H) {
        match self {
            Attachment::Root => state.write_u8(0),
            Attachment::Named(base, unit) => {
                state.write(base);
                state.write_u32(unit_number(*unit));
            }
        }
    }
}

/// Hashed in two writes, and those of an attachment.
impl<'a> Hash for Named<'a> {
    ghost hash_input = { key_input };

    ghost respects_eq = { keys_alike };

    #[inline(always)]
    fn hash<H: Hasher>(&self, state: &mut H) {
        match self {
            Named::Unit(base, unit) => {
                state.write(base);
                state.write_u32(unit_number(*unit));
            }
            Named::UnitAt(base, unit, at) => {
                state.write(base);
                state.write_u32(unit_number(*unit));
                at.hash(state);
            }
            Named::At(at) => at.hash(state),
        }
    }
}
