//! Paths of Rust items.
pub mod show;

ghost use Rattle.std.specs.Prelude.{◌≡◌};
ghost use Rattle.lalrpop_norm_tree_parts.specs.Paths.{path_view};

mod accessors;

use shared_text::Atom;
use std::alloc::AllocError;

/// A path such as `a::b`, or `::a::b` where it is absolute.
#[derive(Debug, PartialEq, Eq, PartialOrd, Ord, Drop)]
pub struct Path {
    /// Whether it begins with `::`.
    pub absolute: bool,
    /// Its parts, the outermost first.
    pub ids: Vec<Atom>,
}

impl Clone for Path {
    ghost is_clone = { λ p q. path_view q ≡ path_view p };

    #[tactic(auto, using(std::proofs::lemmas::List::Elements::same_from_all_zip))]
    fn clone(&self) -> Result<Path, AllocError> {
        let ids = self.ids.clone()?;
        Ok(Path {
            absolute: self.absolute,
            ids,
        })
    }
}
