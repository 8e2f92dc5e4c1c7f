ghost use Rattle.std.specs.Prelude.{◌≡◌, ◌≤◌, IfOk, length, map};
ghost use Rattle.config_rules.specs.Formed.{CountedTables, FittingMachine};
ghost use Rattle.config_rules.specs.MachineText.{after_lines, machine_of, no_machine, word_lines};
ghost use Rattle.cf_types.specs.Policies.{no_policy};
ghost use Rattle.machine_model.specs.Indexed.{IsIndex};
ghost use Rattle.machine_model.specs.Left.{Gives};

use crate::draft::Draft;
use crate::index::{TableNames, index_of};
use crate::line::add_words;
use crate::names::no_names;
use cf_types::code::machine as code;
use cf_types::{Attach, List, Machine, Memory, Policy, Tables};
use machine_text::{LineStop, MachineStop, bad_line, cut_words, first_line};
use std::alloc::Global;

/// About how many bytes a machine file has for each spot.
const BYTES_OF_SPOT: usize = 64;

/// One policy for each attachment.
fn no_policies(alloc: Global, attaches: &[Attach]) -> Result<List<Policy>, Memory>
    ensures { IfOk result (λ policies. policies ≡ map (λ a. no_policy) attaches.now) }
{
    let mut policies = List::make(alloc);
    for _attach in attaches {
        policies.push(Policy::none())?;
    }
    Ok(policies)
}

fn no_machine(alloc: Global, tables: &Tables) -> Result<Machine, Memory>
    ensures { IfOk result (λ m. m ≡ no_machine tables.now) }
{
    Ok(Machine {
        spots: List::make(alloc),
        matches: List::make(alloc),
        styles: List::make(alloc),
        policies: no_policies(alloc, tables.attaches.items())?,
    })
}

/// The machine that the lines of a text describe.
fn read_with(alloc: Global, index: &TableNames, text: &[u8]) -> Result<Machine, MachineStop>
    requires index { IsIndex index.now }
    requires short { length text.now ≤ 1048576 }
    ensures gives { Gives (after_lines index.now.tables.now (word_lines text.now) (no_machine index.now.tables.now)) result }
    ensures few_spots { IfOk result (λ m. length m.spots ≤ 1024) }
{
    let mut draft = Draft {
        machine: no_machine(alloc, index.tables)?,
        names: no_names(alloc, text.len() / BYTES_OF_SPOT)?,
    };
    let mut words = Vec::new(alloc);
    let mut number = 1;
    let mut left = Some(text);
    while let Some(text) = left {
        let (line, rest) = first_line(text);
        cut_words(&mut words, line)?;
        match add_words(alloc, index, &mut draft, &words) {
            Ok(()) => {}
            Err(LineStop::Code(code)) => return Err(MachineStop::Fault { line: number, code }),
            Err(LineStop::Memory) => return Err(MachineStop::Memory),
        }
        left = rest;
        number += 1;
    }
    let Draft { machine, .. } = draft;
    Ok(machine)
}

/// Reads a machine file of at most 1,048,576 bytes, for tables of at most 65,536 attributes and attachments and 16
/// locators an attribute: the machine, which fits the tables, or the first bad line and its code. The format is
/// this project's own.
pub fn read_machine(alloc: Global, text: &[u8], tables: &Tables) -> Result<Machine, MachineStop>
    requires short { length text.now ≤ 1048576 }
    requires counted { CountedTables tables.now }
    ensures gives { Gives (machine_of tables.now text.now) result }
    ensures fits { IfOk result (λ m. FittingMachine tables.now m) }
    ensures few_spots { IfOk result (λ m. length m.spots ≤ 1024) }
{
    match bad_line(text) {
        Some(line) => Err(MachineStop::Fault {
            line,
            code: code::BAD_LINE,
        }),
        None => {
            let index = index_of(alloc, tables)?;
            read_with(alloc, &index, text)
        }
    }
}
