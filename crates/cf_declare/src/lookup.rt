ghost use Rattle.std.specs.Prelude.{◌≡◌, ◌<◌, length, option_map, IfSome};
ghost use Rattle.std.specs.Option.{option_copied};
ghost use Rattle.cf_types.specs.Lookups.{attr_named, attr_number};
ghost use Rattle.config_rules.specs.Declared.{is_root};

use cf_names::Catalog;
use cf_types::{Attr, Name};

/// Whether a name is `root`, which may name nothing else.
pub fn is_root(name: &[u8]) -> bool
    ensures { result ≡ is_root name.now }
{
    name == b"root".as_slice()
}

/// The attribute of this name.
pub fn attr_named<'a>(declared: &'a Catalog, name: &Name) -> Option<&'a Attr>
    ensures { option_copied result ≡ attr_named declared.now.attrs name.now }
{
    match declared.attr_number(name) {
        Some(number) => Some(&declared.attrs()[number]),
        None => None,
    }
}

/// The attribute of this name with its number.
pub fn numbered_attr<'a>(declared: &'a Catalog, name: &Name) -> Option<(usize, &'a Attr)>
    ensures number { option_map (λ found. found.0) result ≡ attr_number declared.now.attrs name.now }
    ensures attr { option_map (λ found. found.1.now) result ≡ attr_named declared.now.attrs name.now }
    ensures within { IfSome result (λ found. found.0 < length declared.now.attrs) }
{
    match declared.attr_number(name) {
        Some(number) => Some((number, &declared.attrs()[number])),
        None => None,
    }
}
