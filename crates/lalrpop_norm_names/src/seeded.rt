//! A hash whose seed is a digest of all that may be hashed.
ghost use Rattle.std.specs.Prelude.{◌≡◌, map};
ghost use Rattle.std.specs.Hash.DefaultHasher.{initial};
ghost use Rattle.lalrpop_norm_names.specs.Seeds.{seeded_after, seeded_hasher};

use lalrpop_norm_tree_names::names::NonterminalString;
use shared_text::Atom;
use std::hash::{BuildHasher, DefaultHasher, Hash, Hasher};

/// Makes each hasher as a copy of one that has read a seed.
#[derive(Clone, Copy)]
pub struct Seeded {
    start: DefaultHasher,
}

impl Seeded {
    /// The seed is 128 bits that depend on all that a hasher has read. Whoever changes any of it changes each hash.
    pub fn after(mut reader: DefaultHasher) -> Seeded
        ensures { result.start ≡ seeded_after reader }
    {
        let digest = reader.finish();
        reader.write_u64(digest);
        let mut start = DefaultHasher::new();
        start.write_u64(digest);
        start.write_u64(reader.finish());
        Seeded { start }
    }

    /// Without a seed, for an empty table: nothing in it can be chosen to collide.
    pub(crate) fn of_nothing() -> Seeded
        ensures { result.start ≡ initial }
    {
        Seeded {
            start: DefaultHasher::new(),
        }
    }

    /// By all the names of rules, and their order.
    pub(crate) fn by(names: &[NonterminalString]) -> Seeded
        ensures { result.start ≡ seeded_hasher (map (λ n. n.0) names.now) }
    {
        let mut reader = DefaultHasher::new();
        NonterminalString::hash_slice(names, &mut reader);
        Seeded::after(reader)
    }

    /// By all the names, and their order.
    pub fn by_names(names: &[Atom]) -> Seeded
        ensures { result.start ≡ seeded_hasher names.now }
    {
        let mut reader = DefaultHasher::new();
        Atom::hash_slice(names, &mut reader);
        Seeded::after(reader)
    }
}

impl BuildHasher for Seeded {
    type Hasher = DefaultHasher;

    ghost build_hasher = { λ s. s.start };

    fn build_hasher(&self) -> DefaultHasher {
        self.start
    }
}
