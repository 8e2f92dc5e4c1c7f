//! The match values of attachments at spots.
ghost use Rattle.std.specs.Prelude.{◌≡◌, ◌==◌, ◌&&◌, not, is_some, find, reverse};
ghost use Rattle.run_rules.specs.Search as rule;
ghost use Rattle.run_rules.specs.World as world;

use cf_types::{Machine, MatchLine};

fn is_number(value: Option<u16>, n: u16) -> bool
    ensures { result ≡ world.is_number value n }
{
    match value {
        Some(m) => m == n,
        None => false,
    }
}

fn last_for(lines: &[MatchLine], attach: u32, spot: u16) -> Option<MatchLine>
    ensures { result ≡ find (λ line. line.attach == attach && world.is_number line.spot spot) (reverse lines.now) }
{
    lines
        .iter()
        .rev()
        .copied()
        .find(|m| m.attach == attach && is_number(m.spot, spot))
}

fn last_for_all(lines: &[MatchLine], attach: u32) -> Option<MatchLine>
    ensures { result ≡ find (λ line. line.attach == attach && not (is_some line.spot)) (reverse lines.now) }
{
    lines
        .iter()
        .rev()
        .copied()
        .find(|m| m.attach == attach && m.spot.is_none())
}

/// The match value of an attachment at a spot.
#[tactic(auto, unfolding(run_rules::specs::Search::match_value))]
pub fn match_value(machine: &Machine, attach: u32, spot: u16) -> u32
    ensures { result ≡ rule.match_value machine.now attach spot }
{
    match last_for(machine.matches.items(), attach, spot) {
        Some(line) => line.value,
        None => match last_for_all(machine.matches.items(), attach) {
            Some(line) => line.value,
            None => 0,
        },
    }
}
