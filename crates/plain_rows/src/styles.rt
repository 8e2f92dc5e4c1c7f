//! Which attributes the devices of an attachment search row by row.
ghost use Rattle.std.specs.Prelude.{◌≡◌, ◌<◌, ◌==◌, ◌&&◌, ◌∷◌, ℕ, [], false, not, if◌then◌else◌, filter, length, option_map, IfOk, OnOk, Some};
ghost use Rattle.std.specs.Option.{option_map_or};
ghost use Rattle.plain_rows.specs.Styles.{AreStyles, HaveStyle, lists_of, style_at, style_in, style_of_lines};

use cf_types::{Memory, StyleLine};
use std::alloc::Global;

/// For each attachment its style lines, of each attribute only the last. What is looked for is found among those of the
/// attachment.
#[derive(Drop)]
pub struct Styles {
    pub lists: Vec<Vec<StyleLine>>,
}

/// Removes the lines for an attribute.
fn forget(list: &mut Vec<StyleLine>, attr: u32)
    ensures { list.new.items ≡ filter (λ line. not (line.attr == attr)) list.old.items }
{
    list.retain(|line| line.attr != attr);
}

/// Puts a line before the others, in place of those for the same attribute.
fn put(list: &mut Vec<StyleLine>, line: &StyleLine) -> Result<(), Memory>
    ensures { OnOk result ((a : ℕ) → style_in list.new.items a ≡ (if line.now.attr == a then Some line.now.indirect else style_in list.old.items a)) }
{
    forget(list, line.attr);
    list.insert(0, *line)?;
    Ok(())
}

/// Makes the lists reach an attachment.
fn reach(alloc: Global, lists: &mut Vec<Vec<StyleLine>>, attach: u32) -> Result<(), Memory>
    ensures same { (k a : ℕ) → style_at (lists_of lists.new.items) k a ≡ style_at (lists_of lists.old.items) k a }
    ensures ok { OnOk result (attach < length lists.new.items) }
{
    for _more in lists.len()..attach as usize + 1 {
        lists.push(Vec::new(alloc))?;
    }
    Ok(())
}

/// Adds a line to those of its attachment.
fn add(alloc: Global, lists: &mut Vec<Vec<StyleLine>>, line: &StyleLine) -> Result<(), Memory>
    ensures { OnOk result (HaveStyle line.now (lists_of lists.old.items) (lists_of lists.new.items)) }
{
    reach(alloc, lists, line.attach)?;
    put(&mut lists[line.attach as usize], line)
}

/// The style of an attribute in a list of lines.
fn found_in(list: &[StyleLine], attr: u32) -> bool
    ensures { result ≡ option_map_or (λ indirect. indirect) (style_in list.now attr) false }
{
    match list.iter().find(|line| line.attr == attr) {
        Some(line) => line.indirect,
        None => false,
    }
}

impl Styles {
    /// The styles that these lines give. The last line for an attachment and an attribute counts.
    pub fn make(alloc: Global, lines: &[StyleLine]) -> Result<Styles, Memory>
        ensures { IfOk result (λ styles. AreStyles lines.now styles) }
    {
        let mut lists = Vec::new(alloc);
        for line in lines {
            add(alloc, &mut lists, line)?;
        }
        Ok(Styles { lists })
    }

    /// Whether a device of an attachment searches an attribute row by row.
    #[inline(always)]
    pub fn is_indirect(&self, attach: u32, attr: u32) -> bool
        ensures { result ≡ option_map_or (λ indirect. indirect) (style_at (lists_of self.now.lists.items) attach attr) false }
    {
        match self.lists.get(attach as usize) {
            Some(list) => found_in(list, attr),
            None => false,
        }
    }
}
