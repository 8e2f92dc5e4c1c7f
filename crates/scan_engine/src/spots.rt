//! The spots below a spot.
ghost use Rattle.std.specs.Prelude.{◌≡◌, ◌≤◌, ◌&&◌, not, nat_lt, find, length};
ghost use Rattle.cf_types.specs.Numbers.{below};
ghost use Rattle.run_rules.specs.Search as rule;
ghost use Rattle.run_rules.specs.Spans.{HoldsChildren};

use cf_types::{Machine, Place};
use run_rules::Span;

/// Whether a spot is below another one, or below the root, at a place.
#[inline(always)]
pub fn is_child(machine: &Machine, parent: Option<u16>, place: Place, spot: u16) -> bool
    ensures { result ≡ rule.is_child machine.now parent place spot }
{
    match machine.spots.items().get(spot as usize) {
        Some(s) => s.parent == parent && s.place == place,
        None => false,
    }
}

/// The first such spot from a number on, in file order. All of them are in the span.
#[inline(always)]
pub fn next_child(
    machine: &Machine,
    parent: Option<u16>,
    span: Span,
    place: Place,
    from: u16,
) -> Option<u16>
    requires few { length machine.now.spots ≤ 1024 }
    requires span { HoldsChildren machine.now parent span }
    ensures { find (λ x. rule.is_child machine.now parent place x && not (nat_lt x from)) (below (length machine.now.spots)) ≡ result }
{
    let end = span.end.min(machine.spots.len() as u16);
    for spot in from.max(span.first)..end {
        if is_child(machine, parent, place, spot) {
            return Some(spot);
        }
    }
    None
}
