ghost use Rattle.std.specs.Prelude.{◌≡◌, ◌++◌, ◌<◌, ◌^◌, [], option_map, slice_get, IfOk, OnOk, OnErr};
ghost use Rattle.config_rules.specs.Listing.{end_lines, tail_lines, entry_lines, lines};
ghost use Rattle.config_rules.specs.Formed.{FormedTables};
ghost use Rattle.attr_graph.specs.Graphs.{IsGraphOf, declared_by};
ghost use Rattle.ioconf_text.specs.Entries.{entry_text};
ghost use Rattle.ioconf_text.specs.Seeking.{PutsLine};

use crate::definition::{put_attach, put_attr, put_device};
use crate::item::{put_file_system, put_item, put_pseudo, put_warning};
use crate::row::put_row;
use attr_graph::{Graph, graph_of};
use cf_types::{Attach, Attr, Device, Item, Memory, Name, Pseudo, Row, Tables, Warning};

/// An entry of the tables: each has one line of the listing, after the first line.
#[derive(Clone, Copy)]
pub enum Entry<'a> {
    Attr(&'a Attr),
    /// A device, with the attributes that it offers.
    Device(&'a Device, &'a [u32]),
    Attach(&'a Attach),
    /// A row, by its number.
    Row(usize, &'a Row),
    Pseudo(&'a Pseudo),
    /// An option or a makeoption, after its word.
    Item(&'a [u8], &'a Item),
    FileSystem(&'a Name),
    Warning(&'a Warning),
}

/// Entry `n` of the items and warnings.
#[inline]
fn end_at<'a>(tables: &'a Tables, n: usize) -> Option<Entry<'a>>
    ensures { slice_get (end_lines tables.now) n ≡ option_map (entry_text tables.now) result }
{
    if let [item, ..] = tables.options.from(n) {
        return Some(Entry::Item(b"options", item));
    }
    let n = n - tables.options.len();
    if let [item, ..] = tables.makeoptions.from(n) {
        return Some(Entry::Item(b"makeoptions", item));
    }
    let n = n - tables.makeoptions.len();
    if let Some(name) = tables.file_systems.items().get(n) {
        return Some(Entry::FileSystem(name));
    }
    let n = n - tables.file_systems.len();
    match tables.warnings.items().get(n) {
        Some(warning) => Some(Entry::Warning(warning)),
        None => None,
    }
}

/// Entry `n` after the definitions.
#[inline]
fn tail_at<'a>(tables: &'a Tables, n: usize) -> Option<Entry<'a>>
    ensures { slice_get (tail_lines tables.now) n ≡ option_map (entry_text tables.now) result }
{
    if let Some(row) = tables.rows.items().get(n) {
        return Some(Entry::Row(n, row));
    }
    let n = n - tables.rows.len();
    if let Some(pseudo) = tables.pseudos.items().get(n) {
        return Some(Entry::Pseudo(pseudo));
    }
    end_at(tables, n - tables.pseudos.len())
}

/// Entry `n` of the tables, counted from 0, if there are so many.
#[inline]
fn entry_at<'a>(tables: &'a Tables, graph: &'a Graph, n: usize) -> Option<Entry<'a>>
    requires graph { IsGraphOf (declared_by tables.now) graph.now }
    requires small { n < 2 ^ 32 }
    ensures { slice_get (entry_lines tables.now) n ≡ option_map (entry_text tables.now) result }
{
    if let Some(attr) = tables.attrs.items().get(n) {
        return Some(Entry::Attr(attr));
    }
    let n = n - tables.attrs.len();
    if let Some(device) = tables.devices.items().get(n) {
        return Some(Entry::Device(device, graph.interfaces(n as u32)));
    }
    let n = n - tables.devices.len();
    if let Some(attach) = tables.attaches.items().get(n) {
        return Some(Entry::Attach(attach));
    }
    tail_at(tables, n - tables.attaches.len())
}

/// Appends the line of an entry.
fn put_entry(out: &mut Vec<u8>, tables: &Tables, found: Entry) -> Result<(), Memory>
    ensures { OnOk result (out.new.items ≡ out.old.items ++ entry_text tables.now found.entry) }
{
    match found {
        Entry::Attr(attr) => put_attr(out, attr),
        Entry::Device(device, offered) => put_device(out, tables, device, offered),
        Entry::Attach(attach) => put_attach(out, tables, attach),
        Entry::Row(n, row) => put_row(out, tables, n, row),
        Entry::Pseudo(pseudo) => put_pseudo(out, pseudo),
        Entry::Item(word, item) => put_item(out, word, item),
        Entry::FileSystem(name) => put_file_system(out, name),
        Entry::Warning(warning) => put_warning(out, warning),
    }
}

/// Appends line `n` of the listing of the tables, as `put_line_with` does, without a buffer of its own: if memory runs
/// out, a part of the line may be left there.
pub fn put_line_at_once(
    tables: &Tables,
    graph: &Graph,
    n: u32,
    out: &mut Vec<u8>,
) -> Result<bool, Memory>
    requires { IsGraphOf (declared_by tables.now) graph.now }
    ensures { IfOk result (λ more. PutsLine (slice_get (lines tables.now) n) more out.old.items out.new.items) }
{
    if n == 0 {
        out.extend_from_slice(b"tables")?;
        return Ok(true);
    }
    let Some(found) = entry_at(tables, graph, n as usize - 1) else {
        return Ok(false);
    };
    put_entry(out, tables, found)?;
    Ok(true)
}

/// The room that is made for a line at first, in bytes. Most lines are shorter.
const LINE_ROOM: usize = 120;

/// Appends line `n` of the listing of the tables, counted from 0 and without its newline, and returns whether there is
/// one; the graph gives what devices offer. If there is none, or memory runs out, nothing is appended.
pub fn put_line_with(
    tables: &Tables,
    graph: &Graph,
    n: u32,
    out: &mut Vec<u8>,
) -> Result<bool, Memory>
    requires { IsGraphOf (declared_by tables.now) graph.now }
    ensures ok { IfOk result (λ more. PutsLine (slice_get (lines tables.now) n) more out.old.items out.new.items) }
    ensures err { OnErr result (out.new.items ≡ out.old.items) }
{
    let mut line = Vec::with_capacity(*out.allocator(), LINE_ROOM)?;
    let more = put_line_at_once(tables, graph, n, &mut line)?;
    out.extend_from_slice(&line)?;
    Ok(more)
}

/// Appends line `n` of the listing of formed tables, as `put_line_with` does. It makes the graph of what devices offer
/// for itself; for many lines, make the graph once and use `put_line_with`.
pub fn put_line(tables: &Tables, n: u32, out: &mut Vec<u8>) -> Result<bool, Memory>
    requires { FormedTables tables.now }
    ensures ok { IfOk result (λ more. PutsLine (slice_get (lines tables.now) n) more out.old.items out.new.items) }
    ensures err { OnErr result (out.new.items ≡ out.old.items) }
{
    let graph = graph_of(*out.allocator(), tables)?;
    put_line_with(tables, &graph, n, out)
}
