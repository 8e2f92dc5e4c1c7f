//! The numbers between which the spots below a spot are.
ghost use Rattle.std.specs.Prelude.{◌≡◌, ◌<◌, ◌≤◌, ℕ, Option, IfOk, length};
ghost use Rattle.run_rules.specs.Spans.{AreSpansOf, Covers, seat_of, span_at};

use cf_types::{Machine, Memory};
use run_rules::Span;
use std::alloc::Global;
use std::marker::Model;

/// The spots below a spot, or below the root: that spot, and the numbers between which they are.
#[derive(Clone, Copy)]
pub struct Children {
    pub spot: Option<u16>,
    pub span: Span,
}

/// No numbers.
fn no_span() -> Span
    ensures { result ≡ record { first = 0; end = 0 } }
{
    Span { first: 0, end: 0 }
}

/// A span with one number more, and those between.
fn widened(span: Span, spot: u16) -> Span
    requires few { spot < 1024 }
    ensures here { Covers result spot }
    ensures rest { (x : ℕ) → Covers span x → Covers result x }
{
    let first = if span.end == 0 {
        spot
    } else {
        span.first.min(spot)
    };
    Span {
        first,
        end: span.end.max(spot + 1),
    }
}

/// The place of a parent's span: that of the root is first, then those of the spots.
#[inline(always)]
fn seat_of(parent: Option<u16>) -> usize
    ensures { result ≡ seat_of parent }
{
    match parent {
        None => 0,
        Some(spot) => spot as usize + 1,
    }
}

/// For the root and for each spot, the numbers between which the spots below it are. Contracts see the list of spans.
#[derive(Drop)]
pub struct ChildSpans {
    spans: Vec<Span>,
}

impl Model for ChildSpans {
    ghost use Rattle.std.specs.Prelude.{List};
    ghost use Rattle.run_rules.specs.declared.world.Span.{Span};

    ghost Value = { List Span };

    ghost view = { λ it. it.spans.items };
}

impl ChildSpans {
    /// Widens the span of a parent to one spot more.
    fn put(&mut self, parent: Option<u16>, spot: u16)
        requires few { spot < 1024 }
        ensures here { Covers (span_at self.new parent) spot }
        ensures rest { (p : Option ℕ) (x : ℕ) → Covers (span_at self.old p) x → Covers (span_at self.new p) x }
    {
        let seat = seat_of(parent);
        if seat < self.spans.len() {
            self.spans[seat] = widened(self.spans[seat], spot);
        }
    }

    /// The spans of the spots of a machine.
    pub fn make(alloc: Global, machine: &Machine) -> Result<ChildSpans, Memory>
        requires { length machine.now.spots ≤ 1024 }
        ensures { IfOk result (AreSpansOf machine.now) }
    {
        let mut spans = ChildSpans {
            spans: vec![in alloc; no_span(); machine.spots.len() + 1]?,
        };
        for (number, spot) in machine.spots.items().iter().enumerate() {
            spans.put(spot.parent, number as u16);
        }
        Ok(spans)
    }

    /// The numbers between which the spots below a spot, or below the root, are. It takes no memory.
    #[inline(always)]
    pub fn below(&self, parent: Option<u16>) -> Span
        ensures { result ≡ span_at self.now parent }
    {
        match self.spans.get(seat_of(parent)) {
            Some(span) => *span,
            None => Span {
                first: 0,
                end: 1024,
            },
        }
    }
}
