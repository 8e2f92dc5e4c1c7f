ghost use Rattle.app_input.specs.Inputs.{FormedInputs, IsInputsOf};
ghost use Rattle.app_words.specs.declared.program.Program.TheVariants as Program;

use app_input::Inputs;
use history_replay::{ReplayStop, replay};
use sample_machine::inputs_of;
use std::alloc::Global;
use std::test::*;

const HISTORY: &[u8] =
    b"history 2\n0.0 found root on mb: mainbus0 row 0\n0.0 found mainbus0 on isa: isa0 row 1\n0.0 found isa0 on u0: com0 row 2\ntree\n";

// The same up to its third event, whose row is another one.
const OTHER: &[u8] =
    b"history 2\n0.0 found root on mb: mainbus0 row 0\n0.0 found mainbus0 on isa: isa0 row 1\n0.0 found isa0 on u0: com0 row 3\ntree\n";

// How many devices the tree has that a history leads to, or its first bad line; none where memory ran out.
fn replayed(alloc: Global, inputs: Inputs, text: &[u8]) -> Option<Result<usize, u64>>
    requires formed { FormedInputs inputs }
    requires kind { IsInputsOf Program.Drvrun inputs }
{
    match inputs {
        Inputs::Run {
            tables,
            machine,
            scripts,
        } => match replay(alloc, tables.tables(), &machine, scripts.items(), text) {
            Ok(tree) => Some(Ok(tree.len())),
            Err(ReplayStop::Bad { line }) => Some(Err(line)),
            Err(ReplayStop::Memory) => None,
        },
        _ => unreachable!(),
    }
}

// The same, of a history of the sample machine with an empty script.
fn replayed_of(alloc: Global, text: &[u8]) -> Option<Result<usize, u64>> {
    match inputs_of(alloc, &[b""]) {
        Ok(inputs) => replayed(alloc, inputs, text),
        Err(_) => None,
    }
}

#[test]
fn a_history_leads_to_its_tree(rt: HostRuntime) -> Result<(), Fail> {
    assert_eq!(rt; replayed_of(rt.alloc(), HISTORY), Some(Ok(3)));
    assert_eq!(rt; replayed_of(rt.alloc(), OTHER), Some(Err(4)));
    Ok(())
}
