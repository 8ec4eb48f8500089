//! The steps of a traversal that calls a closure at parts of a value.
ghost use Rattle.std.specs.Prelude.{◌≡◌, ◌++◌, [], ◌∷◌, IfOk, OnOk};
ghost use Rattle.std.specs.Fn.{CalledAt};
ghost use Rattle.std.specs.Result.{IfErr};
ghost use Rattle.lalrpop_norm_tree_parts.specs.Paths.{path_view};
ghost use Rattle.lalrpop_norm_tree_parts.specs.Walks.{Answered, Ended};

use crate::names::TypeParameter;
use crate::names::copy::copy_type_parameters;
use crate::path::Path;
use shared_text::{Atom, NoMemory};

/// One more at the end.
pub fn add<X: Drop>(all: &mut Vec<X>, one: X) -> Result<(), NoMemory>
    ensures { OnOk result (all.new.items ≡ all.old.items ++ one ∷ []) }
{
    Ok(all.push(one)?)
}

/// The traversal of one part.
pub fn map_one<T, U: Drop, E: From<NoMemory>, F: FnMut(&T) -> Result<U, E>>(
    one: &T,
    f: &mut F,
) -> Result<U, E>
    requires { F.IsAlwaysCallable f.old }
    ensures again { F.IsAlwaysCallable f.new }
    ensures answered { IfOk result (λ u. Answered (CalledAt F.FnMut) f.old (one.now ∷ []) (u ∷ []) f.new) }
    ensures ended { IfErr result (λ e. Ended (CalledAt F.FnMut) (E.from_gives record {}) f.old (one.now ∷ []) e f.new) }
{
    f(one)
}

/// The same text.
pub fn same_name(name: &Atom) -> Result<Atom, NoMemory>
    ensures { IfOk result (λ n. n ≡ name.now) }
{
    Ok(name.clone()?)
}

/// What a function type begins with, once more.
pub fn same_head(
    forall: &Vec<TypeParameter>,
    path: &Path,
) -> Result<(Vec<TypeParameter>, Path), NoMemory>
    ensures { IfOk result (λ h. (h.0.items ≡ forall.now.items) × (path_view h.1 ≡ path_view path.now)) }
{
    let forall = copy_type_parameters(forall)?;
    Ok((forall, path.clone()?))
}
