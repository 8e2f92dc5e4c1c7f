ghost use Rattle.std.specs.Prelude.{◌≡◌, ◌≤◌, [], true, false, is_some, unwrap_or, option_map, length, IfOk};
ghost use Rattle.config_rules.specs.Declared.{attr};

use cf_names::Catalog;
use cf_types::{Attr, Few, List, Locator, Memory, Name};
use std::alloc::Global;

/// What a statement says of an attribute or a device: the name, the locators, if there are braces, and the attributes
/// that it names.
#[derive(Clone, Copy)]
pub struct Entry<'a> {
    pub name: &'a Name,
    pub locators: &'a Option<List<Locator>>,
    pub needs: &'a Few<Name>,
}

fn copied_locator(locator: &Locator) -> Result<Locator, Memory>
    ensures { IfOk result (λ copy. copy ≡ locator.now) }
{
    Ok(Locator {
        name: locator.name.clone()?,
        default: locator.default,
        optional: locator.optional,
    })
}

fn copied_locators(alloc: Global, locators: &[Locator]) -> Result<List<Locator>, Memory>
    ensures { IfOk result (λ copy. copy ≡ locators.now) }
{
    let mut copy = Vec::with_capacity(alloc, locators.len())?;
    for locator in locators {
        copy.push(copied_locator(locator)?)?;
    }
    Ok(List::from_vec(copy))
}

/// The locators of an attribute; none if no braces are written.
fn locators_of(alloc: Global, locators: &Option<List<Locator>>) -> Result<List<Locator>, Memory>
    ensures { IfOk result (λ copy. copy ≡ unwrap_or locators.now []) }
{
    match locators {
        Some(locators) => copied_locators(alloc, locators.items()),
        None => Ok(List::make(alloc)),
    }
}

/// An attribute of `define` or `defpseudo` that names the attributes of these numbers.
pub fn defined(
    alloc: Global,
    name: &Name,
    pseudo: bool,
    locators: &Option<List<Locator>>,
    numbers: Few<u32>,
) -> Result<Attr, Memory>
    ensures { IfOk result (λ a. a ≡ attr name.now (is_some locators.now) false pseudo (unwrap_or locators.now []) numbers) }
{
    Ok(Attr {
        name: name.clone()?,
        iface: locators.is_some(),
        class: false,
        pseudo,
        locs: locators_of(alloc, locators)?,
        needs: numbers,
    })
}

/// The attribute of a device class.
pub fn class_attr(alloc: Global, name: &Name) -> Result<Attr, Memory>
    ensures { IfOk result (λ a. a ≡ attr name.now false true false [] []) }
{
    Ok(Attr {
        name: name.clone()?,
        iface: false,
        class: true,
        pseudo: false,
        locs: List::make(alloc),
        needs: Few::none(alloc),
    })
}

/// The number that a device's own attribute gets.
pub fn own_number(declared: &Catalog, locators: &Option<List<Locator>>) -> Option<u32>
    requires { length declared.now.attrs ≤ 65536 }
    ensures { result ≡ option_map (λ l. length declared.now.attrs) locators.now }
{
    match locators {
        Some(_) => Some(declared.attrs().len() as u32),
        None => None,
    }
}
