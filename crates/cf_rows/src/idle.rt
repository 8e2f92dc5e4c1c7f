ghost use Rattle.std.specs.Prelude.{◌≡◌, ◌≤◌, ◌==◌, ◌++◌, [], drop, length, replicate, IfOk, IsTrue, OnOk};
ghost use Rattle.std.specs.List.{prefix_len, slice_index_or};
ghost use Rattle.config_rules.specs.Meaning.{warning, warnings};
ghost use Rattle.cf_rows.specs.Idle.{ArePlacesOfNegations, ArePlacesOfNames, ArePlacesOfOrphans};

use cf_types::{List, Memory, Placed, SharedText, Text, WarnKind, Warning};
use std::alloc::Global;

/// A copy of the name under which a file was loaded, by its place; empty if there is none.
pub fn file_name(alloc: Global, files: &[Text], file: u32) -> Result<Text, Memory>
    ensures { IfOk result (λ name. name ≡ slice_index_or files.now file []) }
{
    match files.get(file as usize) {
        Some(name) => Text::copied(alloc, name.items()),
        None => Ok(List::make(alloc)),
    }
}

/// The names of files, which warnings share.
fn shared_names(alloc: Global, files: &[Text]) -> Result<List<SharedText>, Memory>
    ensures { IfOk result (λ names. names ≡ files.now) }
{
    let mut names = Vec::with_capacity(alloc, files.len())?;
    for file in files {
        names.push(SharedText::copied(alloc, file.items())?)?;
    }
    Ok(List::from_vec(names))
}

/// The name under which a file was loaded, by its place; empty if there is none.
#[inline(always)]
fn shared_name(alloc: Global, files: &[SharedText], file: u32) -> Result<SharedText, Memory>
    ensures { IfOk result (λ name. name ≡ slice_index_or files.now file []) }
{
    match files.get(file as usize) {
        Some(name) => Ok(name.clone()?),
        None => SharedText::copied(alloc, &[]),
    }
}

/// A statement with its place, and the names of files that its warnings share.
#[derive(Drop)]
struct Source<'a> {
    alloc: Global,
    files: &'a [SharedText],
    statement: &'a Placed,
    place: usize,
}

/// A warning at the file and line of a statement.
#[inline(always)]
fn make_warning(source: &Source, kind: WarnKind) -> Result<Warning, Memory>
    ensures { IfOk result (λ made. made ≡ warning source.now.files.now source.now.statement.now kind) }
{
    Ok(Warning {
        file: shared_name(source.alloc, source.files, source.statement.file)?,
        line: source.statement.line,
        kind,
    })
}

/// Appends this many warnings of one kind.
fn push_warnings(
    out: &mut List<Warning>,
    source: &Source,
    kind: WarnKind,
    count: usize,
) -> Result<(), Memory>
    ensures { OnOk result (out.new ≡ out.old ++ replicate count (warning source.now.files.now source.now.statement.now kind)) }
{
    for _time in 0..count {
        out.push(make_warning(source, kind)?)?;
    }
    Ok(())
}

/// How often a place is at the beginning.
fn front_count(places: &[u32], place: usize) -> usize
    ensures count { result ≡ prefix_len (λ p. p == place) places.now }
    ensures within { result ≤ length places.now }
{
    let mut count = 0;
    for other in places {
        if *other as usize != place {
            return count;
        }
        count += 1;
    }
    count
}

/// Appends a warning for each time that the place of a statement is at the beginning, and returns the places after that.
#[inline(always)]
fn push_front<'a>(
    out: &mut List<Warning>,
    source: &Source,
    kind: WarnKind,
    places: &'a [u32],
) -> Result<&'a [u32], Memory>
    ensures pushed { OnOk result (out.new ≡ out.old
        ++ replicate (prefix_len (λ p. p == source.now.place) places.now) (warning source.now.files.now source.now.statement.now kind)) }
    ensures left { IfOk result (λ left. left.now ≡ drop (prefix_len (λ p. p == source.now.place) places.now) places.now) }
{
    let count = front_count(places, source.place);
    if count == 0 {
        return Ok(places);
    }
    push_warnings(out, source, kind, count)?;
    Ok(&places[count..])
}

/// The places of the statements that get warnings, in order: of negations of instances that take nothing back; of negations of
/// items, once for each name that takes nothing back; and of orphans.
#[derive(Drop)]
pub struct Warned<'a> {
    pub instances: &'a [u32],
    pub items: &'a [u32],
    pub orphans: &'a [u32],
}

impl Warned<'_> {
    /// Whether no statement gets a warning.
    fn is_none(&self) -> bool
        ensures instances { IsTrue result → self.now.instances.now ≡ [] }
        ensures items { IsTrue result → self.now.items.now ≡ [] }
        ensures orphans { IsTrue result → self.now.orphans.now ≡ [] }
    {
        self.instances.is_empty() && self.items.is_empty() && self.orphans.is_empty()
    }
}

/// No warning, with room for one for each of these places.
fn room_for(alloc: Global, warned: &Warned) -> Result<List<Warning>, Memory>
    ensures { IfOk result (λ made. made ≡ []) }
{
    let count = warned.instances.len() + warned.items.len() + warned.orphans.len();
    Ok(List::from_vec(Vec::with_capacity(alloc, count)?))
}

/// The warnings of statements in their order, at these places.
fn merged(
    alloc: Global,
    files: &[SharedText],
    placed: &[Placed],
    warned: &Warned,
) -> Result<List<Warning>, Memory>
    requires instances { ArePlacesOfNegations warned.now.instances.now placed.now }
    requires items { ArePlacesOfNames warned.now.items.now placed.now }
    ensures { IfOk result (λ made. (insts : _) → ArePlacesOfOrphans warned.now.orphans.now insts → made ≡ warnings files.now insts [] placed.now) }
{
    let mut made = room_for(alloc, warned)?;
    let mut instances = warned.instances;
    let mut items = warned.items;
    let mut left = warned.orphans;
    for (place, statement) in placed.iter().enumerate() {
        let source = Source {
            alloc,
            files,
            statement,
            place,
        };
        instances = push_front(&mut made, &source, WarnKind::Nothing, instances)?;
        items = push_front(&mut made, &source, WarnKind::Nothing, items)?;
        left = push_front(&mut made, &source, WarnKind::Orphan, left)?;
    }
    Ok(made)
}

/// The warnings of a configuration in the order of its statements: one for each negation of instances and for each name
/// in a negation of items that takes nothing back, and one for each orphan. See config(5).
pub fn warnings(
    alloc: Global,
    files: &[Text],
    placed: &[Placed],
    warned: &Warned,
) -> Result<List<Warning>, Memory>
    requires instances { ArePlacesOfNegations warned.now.instances.now placed.now }
    requires items { ArePlacesOfNames warned.now.items.now placed.now }
    ensures { IfOk result (λ made. (insts : _) → ArePlacesOfOrphans warned.now.orphans.now insts → made ≡ warnings files.now insts [] placed.now) }
{
    if warned.is_none() {
        return Ok(List::make(alloc));
    }
    let names = shared_names(alloc, files)?;
    merged(alloc, names.items(), placed, warned)
}
