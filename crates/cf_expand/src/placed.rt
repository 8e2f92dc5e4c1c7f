ghost use Rattle.std.specs.Prelude.{◌≡◌, ℕ, ◌<◌, ◌||◌, [], ◌∷◌, ◌++◌, List as Items, OnErr, OnOk, length, vec_capacity};
ghost use Rattle.std.specs.Option.{option_copied};
ghost use Rattle.config_rules.specs.Reading.{declares, is_declared};
ghost use Rattle.config_rules.specs.Written.{AreWritten, IsWritten};
ghost use Rattle.cf_expand.specs.Names.{declared_name, has};

use cf_types::{List, Memory, Name, Placed, Stmt};
use std::alloc::Global;
use std::collections::BTreeSet;
use std::marker::Model;

/// The most statements that are placed.
pub const MAX_PLACED: usize = 65_536;

/// The name of the attribute or the device that a statement declares.
#[inline(always)]
fn declared_name(stmt: &Stmt) -> Option<&Name>
    ensures { option_copied result ≡ declared_name stmt.now }
{
    match stmt {
        Stmt::Define { name, .. }
        | Stmt::Class { name }
        | Stmt::DefPseudo { name, .. }
        | Stmt::Device { name, .. } => Some(name),
        _ => None,
    }
}

/// Adds the name that a statement declares.
#[inline(always)]
fn note(alloc: Global, names: &mut BTreeSet<Vec<u8>>, stmt: &Stmt) -> Result<(), Memory>
    ensures ok { OnOk result ((name : Items ℕ) → has names.new name ≡ (has names.old name || declares name stmt.now)) }
    ensures err { OnErr result (names.new.keys ≡ names.old.keys) }
{
    let Some(name) = declared_name(stmt) else {
        return Ok(());
    };
    let key = Vec::from_slice(alloc, name.bytes())?;
    names.insert(key)?;
    Ok(())
}

/// Whether a statement declares this name.
fn declares(name: &[u8], stmt: &Stmt) -> bool
    ensures { result ≡ declares name.now stmt.now }
{
    match declared_name(stmt) {
        Some(declared) => declared.bytes() == name,
        None => false,
    }
}

/// Whether one of these statements declares this name.
fn is_declared(placed: &[Placed], name: &[u8]) -> bool
    ensures { result ≡ is_declared placed.now name.now }
{
    for one in placed {
        if declares(name, &one.stmt) {
            return true;
        }
    }
    false
}

/// For how many statements there is room at first: as many as a kernel has. Room that is not filled is never touched, and
/// a list of this size grows without being moved.
const FIRST_ROOM: usize = 2_048;

/// Makes room for one more statement.
#[inline(never)]
#[cold]
fn make_room(items: &mut Vec<Placed>) -> Result<(), Memory>
    ensures same { items.new.items ≡ items.old.items }
    ensures room { OnOk result (length items.new.items < vec_capacity items.new) }
{
    let more = if items.is_empty() { FIRST_ROOM } else { 1 };
    items.reserve(more)?;
    Ok(())
}

/// Frees a statement for which there is no memory. What frees it stays out of the function that places each statement.
#[inline(never)]
#[cold]
fn discard(placed: Placed) {
    drop(placed);
}

/// After how many conditions names are noted: until then, each condition looks through the statements. A kernel has few.
const CONDITIONS_A_NOTE: u32 = 16;

/// The placed statements, which keep the limits of the language, with a set of the names that the first so many of them
/// declare, and how many conditions came since these were noted. Contracts see only the list.
#[derive(Drop)]
pub struct PlacedList {
    items: Vec<Placed>,
    noted: usize,
    names: BTreeSet<Vec<u8>>,
    conditions: u32,
}

impl Model for PlacedList {
    ghost use Rattle.std.specs.Prelude.{◌≤◌, List as Items, length, take};
    ghost use Rattle.cf_types.specs.declared.stmt.Placed.{Placed};
    ghost use Rattle.config_rules.specs.Written.{AreWritten};
    ghost use Rattle.cf_expand.specs.Names.{AreNamesOf};

    ghost Value = { Items Placed };

    ghost view = { λ it. it.items.items };

    ghost invariant = { λ it. AreNamesOf (take it.noted it.items.items) it.names × (it.noted ≤ length it.items.items) × AreWritten it.items.items };
}

impl PlacedList {
    /// No statement.
    pub fn make(alloc: Global) -> PlacedList
        ensures { result ≡ [] }
    {
        PlacedList {
            items: Vec::new(alloc),
            noted: 0,
            names: BTreeSet::new(alloc),
            conditions: 0,
        }
    }

    /// How many statements there are.
    pub fn len(&self) -> usize
        ensures { result ≡ length self.now }
    {
        self.items.len()
    }

    /// Adds the names that are not yet in the set.
    fn note_all(&mut self) -> Result<(), Memory>
        ensures { self.new ≡ self.old }
    {
        let alloc = *self.items.allocator();
        while self.noted < self.items.len() {
            note(alloc, &mut self.names, &self.items[self.noted].stmt)?;
            self.noted += 1;
        }
        Ok(())
    }

    /// Counts a condition, and notes names once there were many.
    fn count_condition(&mut self) -> Result<(), Memory>
        ensures { self.new ≡ self.old }
    {
        if self.conditions < CONDITIONS_A_NOTE {
            self.conditions += 1;
            return Ok(());
        }
        self.conditions = 0;
        self.note_all()
    }

    /// Appends a statement.
    #[inline(always)]
    pub fn push(&mut self, placed: Placed) -> Result<(), Memory>
        requires few { length self.old < 65536 }
        requires written { IsWritten placed.stmt }
        ensures { OnOk result (self.new ≡ self.old ++ placed ∷ []) }
    {
        let is_condition = matches!(placed.stmt, Stmt::Cond { .. });
        if self.items.len() >= self.items.capacity() {
            if let Err(stop) = make_room(&mut self.items) {
                discard(placed);
                return Err(stop);
            }
        }
        self.items.push_reserved(placed);
        if is_condition {
            self.count_condition()?;
        }
        Ok(())
    }

    /// Whether one of the statements declares an attribute or a device of this name.
    pub fn declare(&self, name: &[u8]) -> bool
        ensures { result ≡ is_declared self.now name.now }
    {
        self.names.contains(name) || is_declared(&self.items[self.noted..], name)
    }

    /// The statements as a list.
    pub fn into_list(self) -> List<Placed>
        ensures same { result ≡ self }
        ensures written { AreWritten result }
    {
        let PlacedList { items, .. } = self;
        List::from_vec(items)
    }
}
