//! A shared text, seen as its bytes.
ghost use Rattle.std.specs.Prelude.{◌≡◌, ℕ, List, IfOk, nat_eq, Some, refl, ⊤};
ghost use Rattle.std.specs.Ordering.{nat_cmp};
ghost use Rattle.std.specs.Hash as fed;
ghost use Rattle.std.specs.Str.{IsUtf8};
ghost use Rattle.std.specs.Cmp.Lexicographic.{pointwise, slice_cmp};
ghost use Rattle.std.specs.Cmp;
ghost use Rattle.std.specs.Cmp.Lexicographic.{nat_list_eq_equiv, nat_list_cmp_total, texts_ties, texts_po};

use crate::counts::Shared;
use crate::short::Short;
use std::alloc::{AllocError, AllocFailed, Global};
use std::cmp::Ordering;
use std::fmt;
use std::hash::{Hash, Hasher};
use std::marker::Model;

/// There was no memory for what was asked.
#[derive(Clone, Copy, Debug, PartialEq, Eq)]
pub struct NoMemory;

impl From<AllocError> for NoMemory {
    fn from(_: AllocError) -> NoMemory {
        NoMemory
    }
}

impl<T: Drop> From<AllocFailed<T>> for NoMemory {
    fn from(_: AllocFailed<T>) -> NoMemory {
        NoMemory
    }
}

/// Where the bytes of a text are.
#[derive(Drop)]
enum Text {
    /// In the value itself.
    Short(Short),
    /// On the heap, with several owners.
    Long(Shared<String, Global>),
}

/// A text, seen as its bytes. It stays as it is.
///
/// A text of up to 14 bytes lies in the value itself, a longer one on the heap, with several owners: a
/// copy of an `Atom` allocates nothing and cannot fail. Equality, order, hash and `Display` are those of the bytes.
#[derive(Drop)]
pub struct Atom {
    text: Text,
}

impl Model for Atom {
    ghost use Rattle.std.specs.Prelude.{ℕ, List};
    ghost use Rattle.std.specs.Coded.{coded_ℕ, coded_list};
    ghost use Rattle.shared_text.specs.Texts.{text_bytes};

    ghost Value = { List ℕ };

    ghost coded = { coded_list coded_ℕ };

    ghost view = { λ a. text_bytes a.text };
}

impl Atom {
    /// The text, copied once. The only error is a failed allocation, where the text is longer than 14 bytes.
    pub fn new(alloc: Global, text: &str) -> Result<Atom, NoMemory>
        ensures { IfOk result (λ a. a ≡ text.now) }
    {
        if let Some(short) = Short::new(text) {
            return Ok(Atom {
                text: Text::Short(short),
            });
        }
        let long = String::from_str(alloc, text)?;
        let shared = Shared::new(alloc, long)?;
        Ok(Atom {
            text: Text::Long(shared),
        })
    }

    /// The text.
    pub fn as_str(&self) -> &str
        ensures text { result.now ≡ self.now }
        ensures utf8 { IsUtf8 self.now }
    {
        match &self.text {
            Text::Short(short) => short.as_str(),
            Text::Long(shared) => shared.value().as_str(),
        }
    }

    /// A copy of the text, which allocates nothing: `clone` with no `Result`, for a function that must not fail.
    pub fn again(&self) -> Atom
        ensures { result ≡ self.now }
    {
        let text = match &self.text {
            Text::Short(short) => Text::Short(short.again()),
            Text::Long(shared) => Text::Long(shared.again()),
        };
        Atom { text }
    }
}

impl Clone for Atom {
    ghost is_clone = { λ a b. b ≡ a };

    ghost is_infallible = { λ _. ⊤ };

    fn clone(&self) -> Result<Atom, AllocError> {
        Ok(self.again())
    }
}

impl PartialEq for Atom {
    ghost eq = { pointwise nat_eq };

    ghost laws = { Cmp.partial_equiv_from_equiv nat_list_eq_equiv };

    fn eq(&self, other: &Atom) -> bool {
        self.as_str() == other.as_str()
    }
}

impl Eq for Atom {
    ghost laws = { nat_list_eq_equiv };
}

impl PartialOrd for Atom {
    ghost partial_cmp = { λ a b. Some (slice_cmp nat_cmp a b) };

    ghost laws = { texts_po };

    fn partial_cmp(&self, other: &Atom) -> Option<Ordering> {
        Some(self.cmp(other))
    }
}

impl Ord for Atom {
    ghost cmp = { slice_cmp nat_cmp };

    ghost total = { nat_list_cmp_total };

    ghost matches_partial_cmp = { λ x y. refl };

    ghost matches_eq = { λ x y. texts_ties x y };

    fn cmp(&self, other: &Atom) -> Ordering {
        self.as_str().cmp(other.as_str())
    }
}

impl Hash for Atom {
    ghost use Rattle.std.proofs.Common.{rules};
    ghost use Rattle.std.specs.Cmp.Rules.{hashing};
    ghost use Rattle.std.specs.Hash as fed;

    ghost hash_input = { λ a. fed.str a };

    ghost respects_eq = { Prim.search (hashing, rules) };

    fn hash<H: Hasher>(&self, state: &mut H) {
        self.as_str().hash(state);
    }
}

impl fmt::Display for Atom {
    ghost output = { λ a. Some a };

    fn fmt<W: fmt::Write>(&self, f: &mut fmt::Formatter<W>) -> fmt::Result {
        fmt::Display::fmt(self.as_str(), f)
    }
}

impl fmt::Debug for Atom {
    fn fmt<W: fmt::Write>(&self, f: &mut fmt::Formatter<W>) -> fmt::Result {
        fmt::Debug::fmt(self.as_str(), f)
    }
}
