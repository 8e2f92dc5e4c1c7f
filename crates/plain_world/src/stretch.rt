//! The numbers between which the spots below a spot are, so that a scan looks at no others.
ghost use Rattle.std.specs.Prelude.{◌≡◌, ◌<◌, ◌≤◌, ℕ, Option, IfOk, length};
ghost use Rattle.run_rules.specs.Spans.{AreSpansOf, Covers, seat_of, span_at};

use cf_types::{Machine, Memory};
use run_rules::Span;
use std::alloc::Global;

/// The place of a parent's stretch in a list of them: that of the root is the first one.
fn place_in(parent: Option<u16>) -> usize
    ensures { result ≡ seat_of parent }
{
    match parent {
        None => 0,
        Some(spot) => spot as usize + 1,
    }
}

/// A stretch that now also contains this number.
fn reaching(stretch: Span, spot: u16) -> Span
    requires { spot < 1024 }
    ensures here { Covers result spot }
    ensures rest { (x : ℕ) → x < spot → Covers stretch x → Covers result x }
{
    Span {
        first: stretch.first.min(spot),
        end: spot + 1,
    }
}

/// Takes the next spot into the stretch of its parent.
fn reach(stretches: &mut Vec<Span>, parent: Option<u16>, spot: u16)
    requires { spot < 1024 }
    ensures here { Covers (span_at stretches.new.items parent) spot }
    ensures rest { (p : Option ℕ) (x : ℕ) → x < spot → Covers (span_at stretches.old.items p) x → Covers (span_at stretches.new.items p) x }
{
    let place = place_in(parent);
    if place < stretches.len() {
        stretches[place] = reaching(stretches[place], spot);
    }
}

/// The stretches of the spots below the root and below each spot.
pub fn stretches_of(alloc: Global, machine: &Machine) -> Result<Vec<Span>, Memory>
    requires { length machine.now.spots ≤ 1024 }
    ensures { IfOk result (λ stretches. AreSpansOf machine.now stretches.items) }
{
    let none = Span {
        first: 1024,
        end: 0,
    };
    let mut stretches = vec![in alloc; none; machine.spots.len() + 1]?;
    for (number, spot) in machine.spots.items().iter().enumerate() {
        reach(&mut stretches, spot.parent, number as u16);
    }
    Ok(stretches)
}

/// The numbers between which the spots below a spot, or below the root, are.
pub fn stretch_at(stretches: &[Span], parent: Option<u16>) -> Span
    ensures { result ≡ span_at stretches.now parent }
{
    match stretches.get(place_in(parent)) {
        Some(stretch) => *stretch,
        None => Span {
            first: 0,
            end: 1024,
        },
    }
}
