ghost use Rattle.std.specs.Prelude.{◌≡◌, IfOk};

use cf_types::{Item, Memory, Text};
use std::alloc::Global;

/// A copy of an item's value.
fn value_copied(alloc: Global, value: &Option<Text>) -> Result<Option<Text>, Memory>
    ensures { IfOk result (λ copy. copy ≡ value.now) }
{
    match value {
        Some(text) => Ok(Some(Text::copied(alloc, text.items())?)),
        None => Ok(None),
    }
}

/// A copy of an option or a makeoption.
pub fn item_copied(alloc: Global, item: &Item) -> Result<Item, Memory>
    ensures { IfOk result (λ copy. copy ≡ item.now) }
{
    Ok(Item {
        name: item.name.clone()?,
        plus: item.plus,
        value: value_copied(alloc, &item.value)?,
    })
}
