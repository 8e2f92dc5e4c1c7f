ghost use Rattle.std.specs.Prelude.{◌≡◌, ℕ, List, [], ◌++◌};
ghost use Rattle.cf_names.specs.Hash.{Holds, hash_of, line_of};

use sha2::{Digest, Sha512};
use std::hash::{BuildHasher, FoldHasher, Hasher};

/// Hashes a name by two rounds of multiplication, each with a secret of its own.
#[derive(Clone, Copy)]
pub struct NameHasher {
    round: FoldHasher,
    last: FoldHasher,
}

impl Hasher for NameHasher {
    ghost use Rattle.cf_names.specs.Hash.{finish, write};

    ghost write = { write };

    ghost finish = { finish };

    fn write(&mut self, bytes: &[u8]) {
        self.round.write(bytes);
    }

    fn finish(&self) -> u64 {
        let mut last = self.last;
        last.write_u64(self.round.finish());
        last.finish()
    }
}

/// Hashes names by a key that is computed from all names together, so that nobody can choose names with equal hashes.
#[derive(Clone, Copy)]
pub struct NameHash {
    keyed: NameHasher,
}

impl BuildHasher for NameHash {
    type Hasher = NameHasher;

    ghost build_hasher = { λ hash. hash.keyed };

    fn build_hasher(&self) -> NameHasher {
        self.keyed
    }
}

/// Takes in the names that are to be hashed, and makes the key of their hash. It needs no memory and never fails.
#[derive(Drop)]
pub struct HashKey {
    digest: Sha512,
}

impl HashKey {
    /// The key of no name.
    pub fn make() -> HashKey
        ensures { Holds result [] }
    {
        HashKey {
            digest: Sha512::new(),
        }
    }

    /// Adds one more name, or the text of a file, and a newline after it.
    pub fn add(&mut self, bytes: &[u8])
        ensures { (taken : List ℕ) → Holds self.old taken → Holds self.new (taken ++ line_of bytes.now) }
    {
        self.digest.update(bytes);
        self.digest.update(b"\n".as_slice());
    }

    /// The hash whose key is the digest of all that was added.
    pub fn hash(self) -> NameHash
        ensures { (taken : List ℕ) → Holds self taken → result ≡ hash_of taken }
    {
        let HashKey { digest } = self;
        let key = digest.finalize();
        let mut round = FoldHasher::default();
        round.write(&key);
        let mut last = round;
        last.write(&key);
        NameHash {
            keyed: NameHasher { round, last },
        }
    }
}
