use cf_io::{Files, Load, MemFile, MemFiles, NotedFiles};
use cf_text::{Split, split_unit};
use cf_types::{List, Memory, Text};
use dev_tree::DevTree;
use machine_text::words_of;
use ref_ledger::Refs;
use std::alloc::Global;
use std::test::*;

// Whether the root has two devices that were attached there as its children, and the first one alone is below itself; none where
// memory ran out.
fn are_listed(alloc: Global) -> Option<(bool, bool)> {
    let mut tree = DevTree::make(alloc);
    let Ok(first) = tree.attach(0, 0, 0, 0, 0) else {
        return None;
    };
    let Ok(_) = tree.attach(1, 1, 0, 0, 1) else {
        return None;
    };
    let children = tree.children(0).ok()?;
    let subtree = tree.subtree(first).ok()?;
    Some((
        children.items() == [1u64, 2].as_slice(),
        subtree.items() == [1u64].as_slice(),
    ))
}

#[test]
fn a_tree_lists_children_and_subtrees(rt: HostRuntime) -> Result<(), Fail> {
    assert_eq!(rt; are_listed(rt.alloc()), Some((true, true)));
    Ok(())
}

// How many references there are after one for caller 2 alone, who holds the device, and who has it solely.
fn held(alloc: Global) -> Option<(u64, u16, Option<u8>)> {
    let mut refs = Refs::make(alloc);
    refs.grant(7, 2, true).ok()?;
    Some((refs.total(), refs.holders(7), refs.sole(7)))
}

#[test]
fn a_ledger_counts_its_references(rt: HostRuntime) -> Result<(), Fail> {
    assert_eq!(rt; held(rt.alloc()), Some((1, 2, Some(2))));
    Ok(())
}

// The words of a line, each with a newline.
fn words_in(alloc: Global, line: &[u8]) -> Option<Vec<u8>> {
    let words = words_of(alloc, line).ok()?;
    let mut lines = Vec::new(alloc);
    for word in words.items() {
        lines.extend_from_slice(word.items()).ok()?;
        lines.push(b'\n').ok()?;
    }
    Some(lines)
}

#[test]
fn a_line_is_cut_into_words(rt: HostRuntime) -> Result<(), Fail> {
    let words = words_in(rt.alloc(), b" spot  mb\troot # a comment");
    assert_eq!(rt; words.as_deref(), Some(b"spot\nmb\nroot\n".as_slice()));
    assert!(rt; matches!(split_unit(b"com12"), Split::Unit { cut: 3, unit: 12 }));
    Ok(())
}

// A file of the name `conf`.
fn noted(alloc: Global) -> Result<NotedFiles<MemFiles>, Memory> {
    let mut files = List::make(alloc);
    files.push(MemFile {
        name: Text::copied(alloc, b"conf")?,
        bytes: Text::copied(alloc, b"device")?,
    })?;
    Ok(NotedFiles {
        files: MemFiles::make(files, List::make(alloc)),
        asked: Vec::new(alloc),
    })
}

// Whether a load reads this file, and how many names were noted then.
fn loaded(alloc: Global) -> Option<(bool, usize)> {
    let Ok(mut files) = noted(alloc) else {
        return None;
    };
    let mut bytes = Vec::new(alloc);
    let whole = files.load(b"conf", &mut bytes) == Load::Whole;
    Some((
        whole && bytes.as_slice() == b"device".as_slice(),
        files.asked.len(),
    ))
}

#[test]
fn noted_files_are_read_and_noted(rt: HostRuntime) -> Result<(), Fail> {
    assert_eq!(rt; loaded(rt.alloc()), Some((true, 1)));
    Ok(())
}
