ghost use Rattle.std.specs.Prelude.{◌≡◌, ◌==◌, IfOk};
ghost use Rattle.std.specs.List.{list_any};
ghost use Rattle.dev_event.specs.Reading as reading;

use crate::cut::{before, behind, is, name_in, number_in};
use cf_types::{List, Memory, Name};
use run_rules::DepthName;
use std::alloc::Global;

fn has_blank(text: &[u8]) -> bool
    ensures { result ≡ list_any (λ c. c == 32) text.now }
{
    text.iter().any(|&byte| byte == b' ')
}

/// The names in a text, separated by blanks.
fn each_name(alloc: Global, text: &[u8]) -> Result<Option<List<Name>>, Memory>
    ensures { IfOk result (λ names. names ≡ reading.all_named (reading.pieces text.now)) }
{
    let mut names = List::make(alloc);
    let mut rest = text;
    'words: while has_blank(rest) {
        let Some(name) = name_in(alloc, before(rest, b' '))? else {
            return Ok(None);
        };
        names.push(name)?;
        rest = behind(rest, b' ');
    }
    let Some(name) = name_in(alloc, before(rest, b' '))? else {
        return Ok(None);
    };
    names.push(name)?;
    Ok(Some(names))
}

/// The names in a text, separated by blanks, each after its depth.
fn each_depth_name(alloc: Global, text: &[u8]) -> Result<Option<List<DepthName>>, Memory>
    ensures { IfOk result (λ names. names ≡ reading.all_deep (reading.pieces text.now)) }
{
    let mut names = List::make(alloc);
    let mut rest = text;
    'words: while has_blank(rest) {
        let depth = number_in(before(rest, b' '));
        let behind_depth = behind(rest, b' ');
        let Some(name) = name_in(alloc, before(behind_depth, b' '))? else {
            return Ok(None);
        };
        names.push(DepthName { depth, name })?;
        if !has_blank(behind_depth) {
            return Ok(Some(names));
        }
        rest = behind(behind_depth, b' ');
    }
    Ok(None)
}

/// The names of a list that a text may spell: `Some(None)` if it says that there is no device.
pub fn names_in(alloc: Global, text: &[u8]) -> Result<Option<Option<List<Name>>>, Memory>
    ensures { IfOk result (λ names. names ≡ reading.listed_by reading.all_named text.now) }
{
    if text.is_empty() {
        return Ok(Some(Some(List::make(alloc))));
    }
    if is(text, b"no device") {
        return Ok(Some(None));
    }
    match each_name(alloc, text)? {
        Some(names) => Ok(Some(Some(names))),
        None => Ok(None),
    }
}

/// The same of a tree.
pub fn depth_names_in(alloc: Global, text: &[u8]) -> Result<Option<Option<List<DepthName>>>, Memory>
    ensures { IfOk result (λ names. names ≡ reading.listed_by reading.all_deep text.now) }
{
    if text.is_empty() {
        return Ok(Some(Some(List::make(alloc))));
    }
    if is(text, b"no device") {
        return Ok(Some(None));
    }
    match each_depth_name(alloc, text)? {
        Some(names) => Ok(Some(Some(names))),
        None => Ok(None),
    }
}
