//! The match line that counts for an attachment and a spot.
ghost use Rattle.std.specs.Prelude.{◌≡◌, ◌==◌, ◌&&◌, None, Some, find, reverse};
ghost use Rattle.run_rules.specs.Search as rule;
ghost use Rattle.match_reasons.specs.Reasons.{counting_line, last_line};

use cf_types::{Machine, MatchLine};

/// Whether two optional spots are the same.
fn same_spot(one: Option<u16>, other: Option<u16>) -> bool
    ensures { result ≡ rule.same_spot one other }
{
    match (one, other) {
        (None, None) => true,
        (Some(one), Some(other)) => one == other,
        _ => false,
    }
}

/// The last line for an attachment and a spot, or for all spots.
fn last_line(lines: &[MatchLine], attach: u32, spot: Option<u16>) -> Option<MatchLine>
    ensures { result ≡ last_line lines.now attach spot }
{
    lines
        .iter()
        .rev()
        .copied()
        .find(|line| line.attach == attach && same_spot(line.spot, spot))
}

/// The line that says how well an attachment matches a spot: the last one for both, else the last one for the
/// attachment and all spots. Without a line it does not match.
pub fn counting_line(machine: &Machine, attach: u32, spot: u16) -> Option<MatchLine>
    ensures { result ≡ counting_line machine.now attach spot }
{
    match last_line(machine.matches.items(), attach, Some(spot)) {
        Some(line) => Some(line),
        None => last_line(machine.matches.items(), attach, None),
    }
}

/// How well an attachment matches a spot, 0 to 65,535.
pub fn match_value(machine: &Machine, attach: u32, spot: u16) -> u32
    ensures { result ≡ rule.match_value machine.now attach spot }
{
    match counting_line(machine, attach, spot) {
        Some(line) => line.value,
        None => 0,
    }
}
