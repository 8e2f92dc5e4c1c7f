ghost use Rattle.std.specs.Prelude.{◌≡◌, ◌<◌, ◌≤◌, ◌&&◌, ◌∷◌, ◌++◌, [], if◌then◌else◌, length, map, not};
ghost use Rattle.std.specs.Prelude.{None, ℕ, Bool, List as Items, true, false, All, IfOk, OnOk};
ghost use Rattle.std.specs.List.{list_any, slice_index_or};
ghost use Rattle.cf_types.specs.Gather.{is_in};
ghost use Rattle.cf_types.specs.declared.stmt.Stmt.{Stmt as Statement};
ghost use Rattle.config_rules.specs.Fault.{is_instance, stmts_of};
ghost use Rattle.config_rules.specs.Meaning.{idle_insts};
ghost use Rattle.config_rules.specs.Select.{kept};
ghost use Rattle.cf_select.specs.Naming.{AreListed, AreShort, TakesBack, TellsIdle, names_at};
ghost use Rattle.std.specs.HashMap.{get};
ghost use Rattle.cf_select.specs.contracts.named.NamedPartialEq.TheImpl as block;
ghost use Rattle.cf_select.specs.declared.named.Named.{Named as Key};
ghost use Rattle.cf_select.specs.Selected.{instances, is_negation, without};

use crate::lists::take_places;
use crate::named::Named;
use crate::negations::{is_instance, named_by, put_instance};
use crate::places::Places;
use cf_types::{List, Memory, Placed, Stmt};
use std::alloc::Global;
use std::collections::HashMap;

/// Which statements are instances that survive, and which negations of instances take back nothing.
#[derive(Drop)]
pub struct SurvivingInstances {
    /// One truth value for each placed statement: true for an instance that no later negation names.
    pub kept: List<bool>,
    /// The places of the negations of instances that take nothing back.
    pub idle: List<u32>,
}

/// Whether one of these is free.
fn has_free(free: &[bool], places: &[usize]) -> bool
    requires { All (λ x. x < length free.now) places.now }
    ensures { result ≡ list_any (λ x. slice_index_or free.now x false) places.now }
{
    for place in places {
        if free[*place] {
            return true;
        }
    }
    false
}

/// These are no longer free.
fn take_all(free: &mut Vec<bool>, places: &[usize])
    requires { All (λ x. x < length free.old.items) places.now }
    ensures size { length free.new.items ≡ length free.old.items }
    ensures left { (x : ℕ) → slice_index_or free.new.items x false ≡ (slice_index_or free.old.items x false && not (is_in x places.now)) }
{
    for place in places {
        free[*place] = false;
    }
}

/// Takes back what a negation names, and returns whether there was something.
fn take_named<'a>(
    alloc: Global,
    free: &mut Vec<bool>,
    lists: &mut HashMap<Named<'a>, Places>,
    key: &Named<'a>,
) -> bool
    requires { AreShort lists.old free.old.items }
    ensures size { length free.new.items ≡ length free.old.items }
    ensures short { AreShort lists.new free.new.items }
    ensures listed { (test : Key → ℕ → Bool) → AreListed test lists.old free.old.items → AreListed test lists.new free.new.items }
    ensures takes { (test : Key → ℕ → Bool) → AreListed test lists.old free.old.items → TakesBack (test key.now) free.old.items free.new.items result }
{
    let places = take_places(alloc, lists, key);
    let found = has_free(free, places.items());
    take_all(free, places.items());
    found
}

/// Takes back what a negation names, and returns whether a statement is a negation that takes nothing back.
fn take_back<'a>(
    alloc: Global,
    free: &mut Vec<bool>,
    lists: &mut HashMap<Named<'a>, Places>,
    stmt: &'a Stmt,
) -> bool
    requires { AreShort lists.old free.old.items }
    ensures size { length free.new.items ≡ length free.old.items }
    ensures short { AreShort lists.new free.new.items }
    ensures listed { (stmts : Items Statement) → AreListed (names_at stmts) lists.old free.old.items → AreListed (names_at stmts) lists.new free.new.items }
    ensures free { (stmts : Items Statement) → length free.old.items ≡ length stmts → AreListed (names_at stmts) lists.old free.old.items
        → free.new.items ≡ without stmt.now stmts free.old.items }
    ensures idle { TellsIdle stmt.now lists.old free.old.items result }
{
    match named_by(stmt) {
        Some(key) => !take_named(alloc, free, lists, &key),
        None => false,
    }
}

/// Appends a place, if it is that of an idle negation.
fn push_idle(idle: &mut List<u32>, is_idle: bool, place: u32) -> Result<(), Memory>
    ensures { OnOk result (idle.new ≡ idle.old ++ (if is_idle then place ∷ [] else [])) }
{
    if is_idle {
        return idle.push(place);
    }
    Ok(())
}

/// Keeps the marks of instances, and removes all others.
fn keep_instances(placed: &[Placed], free: &mut Vec<bool>)
    requires { length free.old.items ≡ length placed.now }
    ensures { free.new.items ≡ instances (stmts_of placed.now) free.old.items }
{
    for (i, p) in placed.iter().enumerate() {
        free[i] = is_instance(&p.stmt) & free[i];
    }
}

/// Whether one of these statements is a negation of instances.
fn negate_instances(placed: &[Placed]) -> bool
    ensures { result ≡ list_any (λ p. is_negation p.stmt) placed.now }
{
    placed.iter().any(|statement| {
        matches!(statement.stmt, Stmt::NoInst { .. } | Stmt::NoDevice { .. })
    })
}

/// The marks of all instances.
fn all_instances(alloc: Global, placed: &[Placed]) -> Result<List<bool>, Memory>
    ensures { IfOk result (λ kept. kept ≡ map (λ p. is_instance p.stmt) placed.now) }
{
    let mut kept = Vec::with_capacity(alloc, placed.len())?;
    for statement in placed {
        kept.push(is_instance(&statement.stmt))?;
    }
    Ok(List::from_vec(kept))
}

/// No list, with room for what most instances are listed by.
fn lists_for<'a>(alloc: Global, placed: &[Placed]) -> Result<HashMap<Named<'a>, Places>, Memory>
    ensures { IfOk result (λ lists. (q : Key) → get block.ghosts.eq lists q ≡ None) }
{
    let instances = placed
        .iter()
        .filter(|statement| is_instance(&statement.stmt))
        .count();
    Ok(HashMap::with_capacity(alloc, instances.saturating_add(instances / 2))?)
}

/// Which of at most 65,536 placed statements are instances that survive, and which negations of instances take back
/// nothing. The only error is `Memory`. See config(5).
pub fn survivors(alloc: Global, placed: &[Placed]) -> Result<SurvivingInstances, Memory>
    requires { length placed.now ≤ 65536 }
    ensures kept { IfOk result (λ it. it.kept ≡ kept (stmts_of placed.now)) }
    ensures idle { IfOk result (λ it. it.idle ≡ idle_insts [] (stmts_of placed.now)) }
{
    if !negate_instances(placed) {
        return Ok(SurvivingInstances {
            kept: all_instances(alloc, placed)?,
            idle: List::make(alloc),
        });
    }
    let mut free = Vec::with_capacity(alloc, placed.len())?;
    let mut idle = List::from_vec(Vec::with_capacity(alloc, placed.len())?);
    let mut lists = lists_for(alloc, placed)?;
    for (i, p) in placed.iter().enumerate() {
        let is_idle = take_back(alloc, &mut free, &mut lists, &p.stmt);
        push_idle(&mut idle, is_idle, i as u32)?;
        put_instance(alloc, &mut lists, &p.stmt, i)?;
        free.push(true)?;
    }
    keep_instances(placed, &mut free);
    Ok(SurvivingInstances {
        kept: List::from_vec(free),
        idle,
    })
}
