ghost use Rattle.std.specs.Prelude.{IfSome};
ghost use Rattle.config_rules.specs.Formed.{FormedTables};

use cf_compile::{Compiled, compile};
use cf_io::{MemFile, MemFiles};
use cf_types::{List, Memory, Name, Text};
use file_select::chosen;
use ioconf_text::{put_line, put_line_with};
use std::alloc::Global;
use std::test::*;

const CONF: &[u8] =
    b"device mainbus\nattach mainbus at root\nfile a.c mainbus & !inet\nfile b.c inet | (mainbus & ffs)\nfile c.c\nfile a.c\noptions FFS\nmainbus0 at root\n";

// A file of the name `conf`.
fn files_of(alloc: Global, text: &[u8]) -> Result<MemFiles, Memory> {
    let mut files = List::make(alloc);
    files.push(MemFile {
        name: Text::copied(alloc, b"conf")?,
        bytes: Text::copied(alloc, text)?,
    })?;
    Ok(MemFiles::make(files, List::make(alloc)))
}

// What a configuration compiles to; none where it is refused or memory ran out.
fn compiled(alloc: Global, text: &[u8]) -> Option<Compiled>
    ensures { IfSome result FormedTables }
{
    let Ok(mut files) = files_of(alloc, text) else {
        return None;
    };
    compile(alloc, &mut files, b"conf").ok()
}

// Names, one a line.
fn lines_of(alloc: Global, names: &[Name]) -> Result<Vec<u8>, Memory> {
    let mut lines = Vec::new(alloc);
    for name in names {
        lines.extend_from_slice(name.bytes())?;
        lines.push(b'\n')?;
    }
    Ok(lines)
}

// The names that a configuration chooses, one a line.
fn chosen_by(alloc: Global, text: &[u8]) -> Option<Vec<u8>> {
    let found = compiled(alloc, text)?;
    match chosen(alloc, found.tables()) {
        Ok(names) => lines_of(alloc, names.items()).ok(),
        Err(_) => None,
    }
}

// Line n of the listing of a configuration; none where there is none.
fn listed_by(alloc: Global, text: &[u8], n: u32) -> Option<Vec<u8>> {
    let found = compiled(alloc, text)?;
    let mut line = Vec::new(alloc);
    match put_line(found.tables(), n, &mut line) {
        Ok(true) => Some(line),
        _ => None,
    }
}

// The same of its tables alone, with their graph made anew.
fn listed_anew(alloc: Global, text: &[u8], n: u32) -> Option<Vec<u8>> {
    let found = compiled(alloc, text)?;
    let Ok(anew) = Compiled::of(alloc, found.into_tables()) else {
        return None;
    };
    let mut line = Vec::new(alloc);
    match put_line_with(anew.tables(), anew.graph(), n, &mut line) {
        Ok(true) => Some(line),
        _ => None,
    }
}

#[test]
fn names_are_chosen_in_the_order_of_their_bytes(rt: HostRuntime) -> Result<(), Fail> {
    let names = chosen_by(rt.alloc(), CONF);
    assert_eq!(rt; names.as_deref(), Some(b"ffs\nmainbus\n".as_slice()));
    Ok(())
}

#[test]
fn a_listing_is_put_by_its_lines(rt: HostRuntime) -> Result<(), Fail> {
    let line = listed_by(rt.alloc(), CONF, 3);
    assert_eq!(rt;
        line.as_deref(),
        Some(b"row 0 mainbus0 at root by mainbus on root flags 0".as_slice())
    );
    let behind = listed_by(rt.alloc(), CONF, 5);
    assert_eq!(rt; behind.as_deref(), None);
    Ok(())
}

#[test]
fn tables_are_listed_by_a_graph_made_anew(rt: HostRuntime) -> Result<(), Fail> {
    let first = listed_by(rt.alloc(), CONF, 1);
    let anew = listed_anew(rt.alloc(), CONF, 1);
    assert!(rt; first.is_some());
    assert_eq!(rt; anew.as_deref(), first.as_deref());
    Ok(())
}
