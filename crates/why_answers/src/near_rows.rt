//! The rows that a word names, each at the spot of a boot to which it came nearest.
ghost use Rattle.std.specs.Prelude.{◌≡◌, ◌++◌, ◌≤◌, ◌^◌, length, IfOk, OnOk};
ghost use Rattle.match_reasons.specs.Searches.{IsSearchAt};
ghost use Rattle.gone_rows.specs.Gone.{stated_by};
ghost use Rattle.why_answers.specs.Near.{at_text, look_text, near_answer, near_lines, near_text, nowhere_text};
ghost use Rattle.why_answers.specs.Seen.{AreSearched};

use crate::near::{Searched, Sight, all_searches, nearest, place_of_row, sight_at};
use crate::rows::{count_line, rows_named, says};
use crate::spot::takes;
use boot_looks::Look;
use cf_types::{List, Memory, Text, put_bytes};
use gone_rows::{Statements, put_gone};
use match_reasons::{RowReason, reason_at};
use plain_world::Rules;
use std::alloc::Global;
use why_text::{column, place_name, put_why, row_front, spot_name};

/// Why a row does not take a spot at a look, or that it does.
fn put_sight(
    out: &mut Vec<u8>,
    rules: &Rules,
    sight: &Sight,
    row: u32,
    spot: u16,
) -> Result<(), Memory>
    requires search { IsSearchAt rules.now sight.now.look.now.live.devices sight.now.look.now.visit.parent spot sight.now.search }
    ensures { OnOk result (out.new.items ≡ out.old.items ++ look_text rules.now row spot sight.now.look.now) }
{
    let look = sight.look;
    let reason = reason_at(rules, &look.live, sight.search, row);
    let told = why_text::Look {
        rules,
        live: &look.live,
        parent: look.visit.parent,
        spot,
    };
    put_why(
        out,
        &told,
        takes(look.visit.passed),
        RowReason { row, reason },
    )
}

/// The spot, and why a row does not take it.
fn put_at(out: &mut Vec<u8>, seen: &Searched, row: u32, spot: u16) -> Result<(), Memory>
    requires searched { AreSearched seen.now }
    ensures { OnOk result (out.new.items ≡ out.old.items ++ at_text seen.now.rules.now seen.now.looks.now row spot) }
{
    let rules = seen.rules;
    put_bytes(out, b"spot ")?;
    put_bytes(out, spot_name(rules.machine, spot))?;
    put_bytes(out, b": ")?;
    match sight_at(seen, spot) {
        Some(sight) => put_sight(out, rules, &sight, row, spot),
        None => Ok(()),
    }
}

/// That no search came to a spot at the place of a row.
fn put_nowhere(out: &mut Vec<u8>, rules: &Rules, row: u32) -> Result<(), Memory>
    ensures { OnOk result (out.new.items ≡ out.old.items ++ nowhere_text rules.now row) }
{
    put_bytes(out, b"no search came to a spot at ")?;
    put_bytes(out, place_name(rules.tables, place_of_row(rules, row)))
}

/// The line of a row: the spot to which it came nearest, and why it does not take that.
fn near_line(alloc: Global, seen: &Searched, width: usize, row: u32) -> Result<Text, Memory>
    requires searched { AreSearched seen.now }
    requires spots { length seen.now.looks.now ≡ length seen.now.rules.now.machine.spots }
    ensures { IfOk result (λ line. line ≡ near_text width seen.now.rules.now seen.now.looks.now row) }
{
    let rules = seen.rules;
    let mut line = row_front(alloc, rules.tables, width, row)?;
    match nearest(seen, row) {
        Some(spot) => put_at(&mut line, seen, row, spot)?,
        None => put_nowhere(&mut line, rules, row)?,
    }
    Ok(List::from_vec(line))
}

/// The count of rows, and a line for each.
fn near_lines(
    alloc: Global,
    seen: &Searched,
    word: &[u8],
    rows: &[u32],
) -> Result<Vec<Text>, Memory>
    requires searched { AreSearched seen.now }
    requires spots { length seen.now.looks.now ≡ length seen.now.rules.now.machine.spots }
    requires few { length rows.now ≤ 2 ^ 32 }
    ensures { IfOk result (λ lines. lines.items ≡ near_lines seen.now.rules.now seen.now.looks.now word.now rows.now) }
{
    let rules = seen.rules;
    let width = column(alloc, rules.tables, rows)?;
    let mut lines = Vec::new(alloc);
    lines.push(count_line(alloc, word, rows.len())?)?;
    for row in rows {
        lines.push(near_line(alloc, seen, width, *row)?)?;
    }
    Ok(lines)
}

/// The rows of the tables that a word names, each with the spot of the boot to which it came nearest and the first reason why it
/// did not take that, and behind them the instances of the name that are not in the tables; `None` if the word names neither and no
/// driver.
pub fn near_answer(
    alloc: Global,
    rules: &Rules,
    looks: &[Option<Look>],
    stated: &Statements,
    word: &[u8],
) -> Result<Option<List<Text>>, Memory>
    requires spots { length looks.now ≡ length rules.now.machine.spots }
    ensures { IfOk result (λ lines. lines ≡ near_answer rules.now looks.now (stated_by stated.now) word.now) }
{
    rules.stands();
    let rows = rows_named(alloc, rules.tables, word)?;
    let seen = all_searches(alloc, rules, looks)?;
    let mut lines = near_lines(alloc, &seen, word, &rows)?;
    put_gone(alloc, &mut lines, stated, word)?;
    if !says(rules.tables, word, &lines) {
        return Ok(None);
    }
    Ok(Some(List::from_vec(lines)))
}
