ghost use Rattle.std.specs.Prelude.{◌≡◌, true, false, map, IfOk};
ghost use Rattle.config_rules.specs.Meaning.{marked};
ghost use Rattle.cf_rows.specs.Rows.{seen};

use cf_types::{Instance, List, Memory};
use std::alloc::Global;

/// The surviving instances: those that lead to the root, and the places of the statements of the orphans, each in order.
#[derive(Drop)]
pub struct Split<'a> {
    pub rooted: List<&'a Instance>,
    pub orphans: List<u32>,
}

/// Splits the instances by their marks, `true` for one that is rooted. An instance without a mark is left out.
pub fn split_by_marks<'a>(
    alloc: Global,
    instances: &'a [Instance],
    marks: &[bool],
) -> Result<Split<'a>, Memory>
    ensures rooted { IfOk result (λ parts. seen parts.rooted ≡ marked true instances.now marks.now) }
    ensures orphans { IfOk result (λ parts. parts.orphans ≡ map (λ i. i.stmt) (marked false instances.now marks.now)) }
{
    let mut rooted = List::from_vec(Vec::with_capacity(alloc, instances.len())?);
    let mut orphans = List::make(alloc);
    for (instance, mark) in instances.iter().zip(marks) {
        if *mark {
            rooted.push(instance)?;
        } else {
            orphans.push(instance.stmt)?;
        }
    }
    Ok(Split { rooted, orphans })
}
