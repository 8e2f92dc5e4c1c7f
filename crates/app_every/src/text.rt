//! The text of every order of scripts.
ghost use Rattle.std.specs.Prelude.{◌≡◌, ◌++◌, flat_map, IfOk, OnOk};
ghost use Rattle.app_every.specs.EveryText.{every_text, number_line, order_line, turn_text, way_text, ways_text};

use app_output::put_count;
use cf_types::Memory;
use every_order::{Every, Way};
use std::alloc::Global;

/// Appends a line with a word and a number.
fn put_number(out: &mut Vec<u8>, word: &[u8], number: u64) -> Result<(), Memory>
    ensures { OnOk result (out.new.items ≡ out.old.items ++ number_line word.now number) }
{
    out.extend_from_slice(word)?;
    put_count(out, number)?;
    out.push(b'\n')?;
    Ok(())
}

/// Appends callers.
fn put_turns(out: &mut Vec<u8>, order: &[u8]) -> Result<(), Memory>
    ensures { OnOk result (out.new.items ≡ out.old.items ++ flat_map turn_text order.now) }
{
    for caller in order {
        out.extend_from_slice(b" ")?;
        put_count(out, u64::from(*caller))?;
    }
    Ok(())
}

/// Appends the line of an order.
fn put_order(out: &mut Vec<u8>, order: &[u8]) -> Result<(), Memory>
    ensures { OnOk result (out.new.items ≡ out.old.items ++ order_line order.now) }
{
    out.extend_from_slice(b"order")?;
    put_turns(out, order)?;
    out.push(b'\n')?;
    Ok(())
}

/// Appends a way with its number: its kind, its order, and its text.
fn put_way(out: &mut Vec<u8>, kind: &[u8], number: u64, way: &Way) -> Result<(), Memory>
    ensures { OnOk result (out.new.items ≡ out.old.items ++ way_text kind.now number way.now) }
{
    put_number(out, kind, number)?;
    put_order(out, &way.order)?;
    out.extend_from_slice(&way.text)?;
    Ok(())
}

/// Appends ways, numbered from 1.
fn put_ways(out: &mut Vec<u8>, kind: &[u8], ways: &[Way]) -> Result<(), Memory>
    ensures { OnOk result (out.new.items ≡ out.old.items ++ ways_text kind.now ways.now) }
{
    for place in 0..ways.len() {
        put_way(out, kind, place as u64 + 1, &ways[place])?;
    }
    Ok(())
}

/// The text of all that the orders of scripts lead to.
#[tactic(auto, unfolding(crate::specs::EveryText::every_text))]
pub fn every_text(alloc: Global, every: &Every) -> Result<Vec<u8>, Memory>
    ensures { IfOk result (λ text. text.items ≡ every_text every.now) }
{
    let mut text = Vec::new(alloc);
    text.extend_from_slice(b"every 1\n")?;
    put_number(&mut text, b"worlds ", every.worlds)?;
    put_number(&mut text, b"turns ", every.turns)?;
    put_ways(&mut text, b"end ", &every.ends)?;
    put_ways(&mut text, b"stuck ", &every.stuck)?;
    Ok(text)
}
