//! The summary of a boot: how many devices, how many spots without one, how many events.
ghost use Rattle.std.specs.Prelude.{◌≡◌, ◌++◌, IfOk, OnOk, count_by, decimal, length};
ghost use Rattle.cf_types.specs.Lines.{ended};
ghost use Rattle.app_tasks.specs.Summary.{attaches, is_unconfigured, summary, summary_line};

use cf_types::Memory;
use dev_board::Board;
use dev_event::{Act, Event};
use std::alloc::Global;

/// Whether an event attaches a device.
fn attaches(event: &Event) -> bool
    ensures { result ≡ attaches event.now }
{
    match event.act.get() {
        Act::Found { got, .. } => got.is_some(),
        Act::Final {
            shown: Some(shown),
            ..
        } => shown.got.is_some(),
        _ => false,
    }
}

/// Whether an event says that no driver takes the spot that was found.
fn is_unconfigured(event: &Event) -> bool
    ensures { result ≡ is_unconfigured event.now }
{
    matches!(event.act.get(), Act::Found { got: None, .. })
}

/// How many events attached a device.
fn attached(board: &Board) -> u64
    ensures { result ≡ count_by attaches board.now.events }
{
    let mut count = 0;
    for place in 0..board.events() {
        if attaches(board.event(place)) {
            count += 1;
        }
    }
    count
}

/// How many events say that no driver takes the spot that was found.
fn unconfigured(board: &Board) -> u64
    ensures { result ≡ count_by is_unconfigured board.now.events }
{
    let mut count = 0;
    for place in 0..board.events() {
        if is_unconfigured(board.event(place)) {
            count += 1;
        }
    }
    count
}

/// Appends a text and a number.
fn put_number(out: &mut Vec<u8>, text: &[u8], number: u64) -> Result<(), Memory>
    ensures { OnOk result (out.new.items ≡ out.old.items ++ (text.now ++ decimal number)) }
{
    let digits = format!(in *out.allocator(); "{number}")?;
    out.extend_from_slice(text)?;
    out.extend_from_slice(digits.as_bytes())?;
    Ok(())
}

/// The line with these numbers and its newline.
fn line_of(
    alloc: Global,
    count: u32,
    devices: u64,
    unconfigured: u64,
    events: u64,
) -> Result<Vec<u8>, Memory>
    ensures { IfOk result (λ line. line.items ≡ ended (summary_line count devices unconfigured events)) }
{
    let mut line = Vec::new(alloc);
    put_number(&mut line, b"load ", u64::from(count))?;
    put_number(&mut line, b": devices ", devices)?;
    put_number(&mut line, b", not configured ", unconfigured)?;
    put_number(&mut line, b", events ", events)?;
    line.push(b'\n')?;
    Ok(line)
}

/// The summary of a boot of a generated machine with this many spots on its bus. A boot frees no device, so the live
/// devices are those that its events attached.
pub fn summary_of(alloc: Global, count: u32, board: &Board) -> Result<Vec<u8>, Memory>
    requires { length board.now.world.live ≡ count_by attaches board.now.events }
    ensures { IfOk result (λ line. line.items ≡ ended (summary count board.now.events board.now.world)) }
{
    let devices = attached(board);
    let unconfigured = unconfigured(board);
    line_of(alloc, count, devices, unconfigured, board.events())
}
