//! The prefixes in force, in one text: what a prefix adds to the one below it comes after that.
ghost use Rattle.std.specs.Prelude.{◌≡◌, ◌==◌, ◌≤◌, ◌++◌, ◌∷◌, [], IfOk, IfSome, OnOk, length, slice_index, take, drop};
ghost use Rattle.config_rules.specs.Reading.{under_prefix};
ghost use Rattle.cf_expand.specs.Paths.{PopsTop, behind, end_of, path_at, top_of};

use cf_types::{List, Memory, Text};
use std::alloc::Global;
use std::collections::VecDeque;
use std::marker::Model;

/// Where the path of a prefix is in the text.
#[derive(Clone, Copy)]
pub struct PathSpan {
    pub start: usize,
    pub end: usize,
}

/// The prefixes in force, the top one first. Contracts see their paths.
#[derive(Drop)]
pub struct Prefixes {
    text: Vec<u8>,
    spans: VecDeque<PathSpan>,
}

impl Model for Prefixes {
    ghost use Rattle.std.specs.Prelude.{List, ℕ, map, length};
    ghost use Rattle.cf_expand.specs.Paths.{AreNested, path_at};

    ghost Value = { List (List ℕ) };

    ghost view = { λ it. map (path_at it.text.items) it.spans.items };

    ghost invariant = { λ it. AreNested (length it.text.items) it.spans.items };
}

/// Whether a path begins with `/`, and so is taken as it is.
fn is_absolute(path: &[u8]) -> bool
    ensures { result ≡ (slice_index path.now 0 == 47) }
{
    match path {
        [first, ..] => *first == b'/',
        [] => false,
    }
}

fn end_of(span: Option<PathSpan>) -> usize
    ensures { result ≡ end_of span }
{
    match span {
        Some(span) => span.end,
        None => 0,
    }
}

/// The top one of these.
fn top_of(spans: &VecDeque<PathSpan>) -> Option<PathSpan>
    ensures { result ≡ top_of spans.now.items }
{
    spans.front().copied()
}

/// The path at this span.
fn path_at(text: &[u8], span: PathSpan) -> &[u8]
    requires { (span.start ≤ span.end) × (span.end ≤ length text.now) }
    ensures { result.now ≡ path_at text.now span }
{
    &text[..span.end][span.start..]
}

/// Makes room for a path after a prefix, and returns where both begin.
fn begin(text: &mut Vec<u8>, top: Option<PathSpan>, path: &[u8]) -> Result<usize, Memory>
    requires { IfSome top (λ s. (s.start ≤ s.end) × (s.end ≤ length text.old.items)) }
    ensures kept { take (end_of top) text.new.items ≡ take (end_of top) text.old.items }
    ensures within { end_of top ≤ length text.new.items }
    ensures begun { IfOk result (λ start. (start ≤ length text.new.items) × (drop start text.new.items ++ path.now ≡ behind text.old.items top path.now)) }
{
    text.truncate(end_of(top));
    match top {
        Some(top) => {
            if is_absolute(path) {
                return Ok(text.len());
            }
            text.push(b'/')?;
            Ok(top.start)
        }
        None => Ok(text.len()),
    }
}

/// Puts a path after a prefix, replacing what is there, and returns the span of both.
fn add_path(text: &mut Vec<u8>, top: Option<PathSpan>, path: &[u8]) -> Result<PathSpan, Memory>
    requires { IfSome top (λ s. (s.start ≤ s.end) × (s.end ≤ length text.old.items)) }
    ensures kept { take (end_of top) text.new.items ≡ take (end_of top) text.old.items }
    ensures within { end_of top ≤ length text.new.items }
    ensures span { IfOk result (λ s. (s.start ≤ s.end) × (s.end ≤ length text.new.items) × (end_of top ≤ s.end)) }
    ensures path { IfOk result (λ s. path_at text.new.items s ≡ behind text.old.items top path.now) }
{
    let start = begin(text, top, path)?;
    text.extend_from_slice(path)?;
    Ok(PathSpan {
        start,
        end: text.len(),
    })
}

/// The prefix, one `/` and the path; or the path alone, if it begins with `/`.
fn joined(alloc: Global, top: &[u8], path: &[u8]) -> Result<Text, Memory>
    ensures { IfOk result (λ text. text ≡ under_prefix (top.now ∷ []) path.now) }
{
    if is_absolute(path) {
        return List::copied(alloc, path);
    }
    let mut bytes = Vec::from_slice(alloc, top)?;
    bytes.push(b'/')?;
    bytes.extend_from_slice(path)?;
    Ok(List::from_vec(bytes))
}

impl Prefixes {
    /// No prefix.
    pub fn make(alloc: Global) -> Prefixes
        ensures { result ≡ [] }
    {
        Prefixes {
            text: Vec::new(alloc),
            spans: VecDeque::new(alloc),
        }
    }

    /// The path after the top prefix; the path alone, if it begins with `/` or there is no prefix.
    pub fn under(&self, alloc: Global, path: &[u8]) -> Result<Text, Memory>
        ensures { IfOk result (λ text. text ≡ under_prefix self.now path.now) }
    {
        match self.spans.front() {
            Some(span) => joined(alloc, path_at(&self.text, *span), path),
            None => List::copied(alloc, path),
        }
    }

    /// Pushes a prefix: the path of the top one with this one after it.
    pub fn push(&mut self, path: &[u8]) -> Result<(), Memory>
        ensures { OnOk result (self.new ≡ under_prefix self.old path.now ∷ self.old) }
    {
        let top = top_of(&self.spans);
        let span = add_path(&mut self.text, top, path)?;
        self.spans.push_front(span)?;
        Ok(())
    }

    /// Removes the top one; `false` if there is none.
    pub fn pop(&mut self) -> bool
        ensures { PopsTop self.old result self.new }
    {
        self.spans.pop_front().is_some()
    }
}
