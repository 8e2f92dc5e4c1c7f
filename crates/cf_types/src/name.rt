ghost use Rattle.std.specs.Prelude.{◌≡◌, ◌≤◌, length, IfOk};
ghost use Rattle.cf_types.specs.Names.{bytes_of};

use crate::Memory;
use std::alloc::{AllocError, Global};
use std::hash::{Hash, Hasher};
use std::marker::Model;
use std::sync::Arc;

/// How many bytes fit into the block of memory that the owners of a name share; a longer name has another block.
const SHORT: usize = 14;

/// At most 14 bytes. Contracts see only the bytes.
#[derive(Debug, Drop)]
struct ShortBytes {
    len: u8,
    bytes: [u8; SHORT],
}

impl Model for ShortBytes {
    ghost use Rattle.std.specs.Prelude.{List, ℕ, ◌≤◌, take};

    ghost Value = { List ℕ };

    ghost view = { λ it. take it.len it.bytes };

    ghost invariant = { λ it. it.len ≤ 14 };
}

impl ShortBytes {
    fn make(bytes: &[u8]) -> ShortBytes
        requires { length bytes.now ≤ 14 }
        ensures { result ≡ bytes.now }
    {
        let mut room = [0; SHORT];
        room[..bytes.len()].copy_from_slice(bytes);
        ShortBytes {
            len: bytes.len() as u8,
            bytes: room,
        }
    }

    fn bytes(&self) -> &[u8]
        ensures { result.now ≡ self.now }
    {
        &self.bytes[..self.len as usize]
    }
}

/// The bytes of a name.
#[derive(Debug, Drop)]
enum NameBytes {
    Short(ShortBytes),
    Long(Box<Vec<u8>>),
}

impl NameBytes {
    #[tactic(auto, unfolding(crate::specs::Names::bytes_of))]
    fn make(alloc: Global, bytes: &[u8]) -> Result<NameBytes, Memory>
        ensures { IfOk result (λ made. bytes_of made ≡ bytes.now) }
    {
        if bytes.len() <= SHORT {
            return Ok(NameBytes::Short(ShortBytes::make(bytes)));
        }
        let long = Vec::from_slice(alloc, bytes)?;
        Ok(NameBytes::Long(Box::new(alloc, long)?))
    }

    #[tactic(auto, unfolding(crate::specs::Names::bytes_of))]
    fn bytes(&self) -> &[u8]
        ensures { result.now ≡ bytes_of self.now }
    {
        match self {
            NameBytes::Short(short) => short.bytes(),
            NameBytes::Long(long) => long,
        }
    }
}

/// A name of 1 to 80 bytes, as that of a device, an attribute or a spot. Contracts see its bytes.
/// It is shared: a clone is a further owner of the same bytes and takes no memory.
#[derive(Debug, Drop)]
pub struct Name {
    bytes: Arc<NameBytes>,
}

impl Model for Name {
    ghost use Rattle.std.specs.Prelude.{List, ℕ, ◌≤◌, length};
    ghost use Rattle.std.specs.Arc.{arc_value};
    ghost use Rattle.cf_types.specs.Names.{bytes_of};

    ghost Value = { List ℕ };

    ghost view = { λ name. bytes_of (arc_value name.bytes) };

    ghost invariant = { λ name. (1 ≤ length (bytes_of (arc_value name.bytes))) × (length (bytes_of (arc_value name.bytes)) ≤ 80) };
}

impl Name {
    /// The name with these bytes.
    pub fn make(alloc: Global, bytes: &[u8]) -> Result<Name, Memory>
        requires not_empty { 1 ≤ length bytes.now }
        requires not_long { length bytes.now ≤ 80 }
        ensures { IfOk result (λ name. name ≡ bytes.now) }
    {
        let bytes = NameBytes::make(alloc, bytes)?;
        Ok(Name {
            bytes: Arc::new(alloc, bytes)?,
        })
    }

    /// The bytes of the name.
    pub fn bytes(&self) -> &[u8]
        ensures bytes { result.now ≡ self.now }
        ensures not_empty { 1 ≤ length self.now }
        ensures not_long { length self.now ≤ 80 }
    {
        self.bytes.bytes()
    }
}

impl PartialEq for Name {
    ghost use Rattle.std.specs.Str.{bytes_eq};
    ghost use Rattle.std.proofs.Common.{rules};

    ghost eq = { bytes_eq };

    ghost laws = { Prim.search rules };

    fn eq(&self, other: &Name) -> bool {
        self.bytes() == other.bytes()
    }
}

impl Eq for Name {
    ghost use Rattle.std.proofs.Common.{rules};
    ghost use Rattle.std.specs.Cmp.Rules.{comparing};

    ghost laws = { Prim.search (comparing, rules) };
}

/// A name is hashed as one piece, without its length.
impl Hash for Name {
    ghost use Rattle.std.specs.Prelude.{[], ◌∷◌};
    ghost use Rattle.std.proofs.Common.{ap};
    ghost use Rattle.std.specs.Cmp.Lexicographic.{bytes_decides};

    ghost hash_input = { λ name. name ∷ [] };

    ghost respects_eq = { λ a b h. ap (λ name. name ∷ []) ((bytes_decides a b).0 h) };

    fn hash<H: Hasher>(&self, state: &mut H) {
        state.write(self.bytes());
    }
}

impl Clone for Name {
    fn clone(&self) -> Result<Name, AllocError>
        ensures { IfOk result (λ name. name ≡ self.now) }
    {
        Ok(Name {
            bytes: self.bytes.clone()?,
        })
    }
}
