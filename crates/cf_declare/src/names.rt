ghost use Rattle.std.specs.Prelude.{◌≡◌, ◌+◌, ◌<◌, ℕ, List, ◌++◌, map, nat_le, MatchOption};
ghost use Rattle.std.specs.List.{sum_by};
ghost use Rattle.std.specs.Option.{option_copied};
ghost use Rattle.cf_names.specs.Hash.{Holds, hash_of};
ghost use Rattle.cf_declare.specs.Names.{new_name, declared_line, declared_lines, key_of, name_count};

use cf_names::{HashKey, NameHash, Room};
use cf_types::{Name, Placed, Stmt};

/// The name that a statement introduces. An attachment without a name of its own has that of its device, which another
/// statement introduced; otherwise it is refused.
fn new_name(stmt: &Stmt) -> Option<&Name>
    ensures { option_copied result ≡ new_name stmt.now }
{
    match stmt {
        Stmt::Define { name, .. } | Stmt::DefPseudo { name, .. } => Some(name),
        Stmt::Class { name } => Some(name),
        Stmt::Device { name, .. } => Some(name),
        Stmt::Attach { attach_name, .. } => attach_name.as_ref(),
        _ => None,
    }
}

/// Adds the name that a statement introduces to the key of a hash.
fn add_declared(key: &mut HashKey, stmt: &Stmt)
    ensures { (taken : List ℕ) → Holds key.old taken → Holds key.new (taken ++ declared_line stmt.now) }
{
    match new_name(stmt) {
        Some(name) => key.add(name.bytes()),
        None => {}
    }
}

/// How much room the declarations of these statements need.
pub fn room_of(placed: &[Placed]) -> Room {
    let mut room = Room {
        attrs: 0,
        devices: 0,
        attaches: 0,
    };
    for statement in placed {
        match &statement.stmt {
            Stmt::Define { .. } | Stmt::DefPseudo { .. } | Stmt::Class { .. } => {
                room.attrs = room.attrs.saturating_add(1);
            }
            Stmt::Device { locs, .. } => {
                room.attrs = room.attrs.saturating_add(usize::from(locs.is_some()));
                room.devices = room.devices.saturating_add(1);
            }
            Stmt::Attach { .. } => room.attaches = room.attaches.saturating_add(1),
            _ => {}
        }
    }
    room
}

/// What is left of a number of names without those of a statement; `None` if these are more.
fn without_names(left: usize, stmt: &Stmt) -> Option<usize>
    ensures { MatchOption result (left < name_count stmt.now) (λ rest. rest + name_count stmt.now ≡ left) }
{
    match stmt {
        Stmt::Define { needs, .. } | Stmt::DefPseudo { needs, .. } | Stmt::Device { needs, .. } => {
            left.checked_sub(1)?.checked_sub(needs.len())
        }
        Stmt::Class { .. } | Stmt::PseudoDevice { .. } => left.checked_sub(1),
        Stmt::Attach { places, needs, .. } => {
            left.checked_sub(2)?
                .checked_sub(places.len())?
                .checked_sub(needs.len())
        }
        Stmt::Inst { .. } => left.checked_sub(2),
        _ => Some(left),
    }
}

/// The most names with which statements need no key of their own. If all of them had one hash, each look-up would go over
/// two thousand names at most, and all look-ups together would take some tenths of a second.
const FEW_NAMES: usize = 4_096;

/// Whether statements have no more names that are looked up or declared than need no key.
fn have_few_names(placed: &[Placed]) -> bool
    ensures { result ≡ nat_le (sum_by (λ p. name_count p.stmt) placed.now) 4096 }
{
    let mut left = FEW_NAMES;
    for statement in placed {
        let Some(rest) = without_names(left, &statement.stmt) else {
            return false;
        };
        left = rest;
    }
    true
}

/// The key of the names that statements declare.
fn declared_key(placed: &[Placed]) -> HashKey
    ensures { Holds result (declared_lines (map (λ p. p.stmt) placed.now)) }
{
    let mut key = HashKey::make();
    for statement in placed {
        add_declared(&mut key, &statement.stmt);
    }
    key
}

/// The hash of the names that statements declare. Its key is computed from these names if they are many, so that nobody can
/// choose many names with equal hashes.
pub fn name_hash(placed: &[Placed]) -> NameHash
    ensures { result ≡ hash_of (key_of placed.now) }
{
    if have_few_names(placed) {
        return HashKey::make().hash();
    }
    declared_key(placed).hash()
}
