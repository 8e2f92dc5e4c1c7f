ghost use Rattle.std.specs.Prelude.{◌≡◌, IfOk};
ghost use Rattle.app_input.specs.Inputs.{FormedInputs, IsInputsOf};
ghost use Rattle.app_words.specs.declared.program.Program.TheVariants as Program;
ghost use Rattle.deed_effect.specs.Agreement.{slots_of};

use app_input::Inputs;
use cf_types::Memory;
use dev_board::{Board, Stepped, Wait, booted_board};
use ref_ledger::PlainSlots;
use sample_machine::inputs_of;
use std::alloc::Global;
use std::test::*;

// The board of the inputs of a run after its boot, with its slots.
fn board_of(alloc: Global, inputs: Inputs) -> Result<(Board, PlainSlots), Memory>
    requires formed { FormedInputs inputs }
    requires kind { IsInputsOf Program.Drvrun inputs }
    ensures { IfOk result (λ r. r.1 ≡ slots_of r.0.world) }
{
    match inputs {
        Inputs::Run {
            tables,
            machine,
            scripts,
        } => booted_board(alloc, tables, machine, scripts),
        _ => unreachable!(),
    }
}

// What a caller waits for after its turn; none where it went on or has ended, and where it has no script.
fn turn(board: &mut Board, slots: &mut PlainSlots, caller: u8) -> Option<Wait>
    requires { slots.old ≡ slots_of board.old.world }
    ensures { slots.new ≡ slots_of board.new.world }
{
    if caller > board.callers() {
        return None;
    }
    match board.step(caller, slots) {
        Stepped::Waits(why) => Some(why),
        _ => None,
    }
}

// What the caller of the last of these turns waits for.
fn last_wait(board: &mut Board, slots: &mut PlainSlots, order: &[u8]) -> Option<Wait>
    requires { slots.old ≡ slots_of board.old.world }
{
    let mut last = None;
    for caller in order {
        last = turn(board, slots, *caller);
    }
    last
}

// What it waits for where these scripts take these turns after the boot of the sample machine.
fn last_wait_of(alloc: Global, scripts: &[&[u8]], order: &[u8]) -> Option<Wait> {
    let Ok(inputs) = inputs_of(alloc, scripts) else {
        return None;
    };
    match board_of(alloc, inputs) {
        Ok((mut board, mut slots)) => {
            let last = last_wait(&mut board, &mut slots, order);
            drop(board);
            last
        }
        Err(_) => None,
    }
}

#[test]
fn a_power_command_waits_for_the_caller_that_has_the_turn(rt: HostRuntime) -> Result<(), Fail> {
    let why = last_wait_of(rt.alloc(), &[b"suspend isa0", b"suspend com0"], &[1, 2]);
    assert_eq!(rt; why, Some(Wait::Power(1)));
    Ok(())
}

#[test]
fn a_suspension_waits_for_a_scan(rt: HostRuntime) -> Result<(), Fail> {
    let why = last_wait_of(
        rt.alloc(),
        &[b"rescan isa0", b"suspend isa0"],
        &[1, 2, 2, 2, 2],
    );
    assert_eq!(rt; why, Some(Wait::Scan(2)));
    Ok(())
}

#[test]
fn a_detach_waits_for_the_reference(rt: HostRuntime) -> Result<(), Fail> {
    let why = last_wait_of(rt.alloc(), &[b"open com0", b"detach com0"], &[1, 2, 2]);
    assert_eq!(rt; why, Some(Wait::Refs(3)));
    Ok(())
}
