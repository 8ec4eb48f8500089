//! What paths are made of and asked for.
ghost use Rattle.std.specs.Prelude.{◌≡◌, [], ◌∷◌, option_map, IfOk, codes};
ghost use Rattle.lalrpop_norm_tree_parts.specs.Accessors.{path_of, single_name};
ghost use Rattle.lalrpop_norm_tree_parts.specs.Paths.{path_view};

use super::Path;
use shared_text::{Atom, NoMemory};
use std::alloc::Global;

impl Path {
    /// The path that is one name. The only error is a failed allocation.
    pub fn from_id(alloc: Global, id: Atom) -> Result<Path, NoMemory>
        ensures { IfOk result (λ p. path_view p ≡ path_of (id ∷ [])) }
    {
        let ids = vec![in alloc; id]?;
        Ok(Path {
            absolute: false,
            ids,
        })
    }

    /// `usize`. The only error is a failed allocation.
    pub fn usize(alloc: Global) -> Result<Path, NoMemory>
        ensures { IfOk result (λ p. path_view p ≡ path_of (codes "usize" ∷ [])) }
    {
        let id = Atom::new(alloc, "usize")?;
        Path::from_id(alloc, id)
    }

    /// `str`. The only error is a failed allocation.
    pub fn str(alloc: Global) -> Result<Path, NoMemory>
        ensures { IfOk result (λ p. path_view p ≡ path_of (codes "str" ∷ [])) }
    {
        let id = Atom::new(alloc, "str")?;
        Path::from_id(alloc, id)
    }

    /// `alloc::vec::Vec`. The only error is a failed allocation.
    pub fn vec(alloc: Global) -> Result<Path, NoMemory>
        ensures { IfOk result (λ p. path_view p ≡ path_of (codes "alloc" ∷ codes "vec" ∷ codes "Vec" ∷ [])) }
    {
        let first = Atom::new(alloc, "alloc")?;
        let second = Atom::new(alloc, "vec")?;
        let third = Atom::new(alloc, "Vec")?;
        let ids = vec![in alloc; first, second, third]?;
        Ok(Path {
            absolute: false,
            ids,
        })
    }

    /// `Option`. The only error is a failed allocation.
    pub fn option(alloc: Global) -> Result<Path, NoMemory>
        ensures { IfOk result (λ p. path_view p ≡ path_of (codes "Option" ∷ [])) }
    {
        let id = Atom::new(alloc, "Option")?;
        Path::from_id(alloc, id)
    }

    /// The name that the path is, if it has one part and is not absolute.
    pub fn as_id(&self) -> Option<&Atom>
        ensures { option_map (λ a. a.now) result ≡ single_name (path_view self.now) }
    {
        if self.absolute {
            return None;
        }
        match self.ids.as_slice() {
            [id] => Some(id),
            _ => None,
        }
    }
}
