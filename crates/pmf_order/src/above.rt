//! Which device above a target sleeps and is to wake first.
ghost use Rattle.std.specs.Prelude.{◌≡◌, ◌&&◌, find, min};
ghost use Rattle.std.specs.Option.{option_map_or};
ghost use Rattle.run_rules.specs.World.{is_under, serial_of};

use dev_tree::DevTree;

/// The lower one of a serial and the lowest before it.
#[inline(always)]
fn lowest(before: Option<u64>, serial: u64) -> u64
    ensures { result ≡ option_map_or (λ lowest. min lowest serial) before serial }
{
    match before {
        Some(lowest) => lowest.min(serial),
        None => serial,
    }
}

/// Of the sleeping ones among the target and its ancestors the one that came first, found by one walk up from the target.
pub fn first_above(tree: &DevTree, target: u64) -> Option<u64>
    ensures { result ≡ serial_of (find (λ d. d.asleep && is_under tree.now.live d.serial target) tree.now.live) }
{
    tree.stands();
    let mut current = target;
    let mut first = None;
    for _level in 0..tree.count() {
        let Some(device) = tree.get(current) else {
            return first;
        };
        if device.asleep {
            first = Some(lowest(first, current));
        }
        current = device.parent;
    }
    first
}
