//! All that is said of a spot.
ghost use Rattle.std.specs.Prelude.{◌≡◌, IfOk};
ghost use Rattle.plain_world.specs.Plain.{world_of};
ghost use Rattle.boot_looks.specs.Looks as looks;
ghost use Rattle.why_answers.specs.Answers.{look_lines, spot_answer};
ghost use Rattle.why_answers.specs.Takes.{takes_text};

use crate::head::head_line;
use boot_looks::{BootLooks, Look, look_at};
use cf_types::{Memory, Text};
use plain_world::Rules;
use std::alloc::Global;
use why_text::reason_lines;

/// What is said of a row that nothing keeps off: at the end of a search row by row its turn has been.
pub fn takes(passed: bool) -> &'static [u8]
    ensures { result.now ≡ takes_text passed }
{
    if passed {
        b"would take it, but its turn was over"
    } else {
        b"takes it"
    }
}

/// The lines of the rows at the last search that came to a spot.
fn look_lines(alloc: Global, rules: &Rules, look: &Look, spot: u16) -> Result<Vec<Text>, Memory>
    ensures { IfOk result (λ lines. lines.items ≡ look_lines rules.now spot look.now) }
{
    let told = why_text::Look {
        rules,
        live: &look.live,
        parent: look.visit.parent,
        spot,
    };
    reason_lines(alloc, &told, takes(look.visit.passed))
}

/// The lines for a spot: the device below which it was searched last and what came there, then the rows and why each took it or did
/// not; or why no search came to it.
pub fn spot_lines(
    alloc: Global,
    rules: &Rules,
    boot: &BootLooks,
    spot: u16,
) -> Result<Vec<Text>, Memory>
    ensures { IfOk result (λ lines. lines.items ≡ spot_answer rules.now spot (world_of rules.now boot.now.end) (looks.look_at boot.now.looks spot)) }
{
    let look = look_at(boot.looks.items(), spot);
    let head = head_line(alloc, rules, &boot.end, look, spot)?;
    let mut lines = match look {
        Some(look) => look_lines(alloc, rules, look, spot)?,
        None => Vec::new(alloc),
    };
    lines.insert(0, head)?;
    Ok(lines)
}
