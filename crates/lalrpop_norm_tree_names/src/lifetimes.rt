//! Lifetimes where there are none.
ghost use Rattle.std.specs.Prelude.{◌≡◌, ◌∷◌, ◌++◌, [], length, IfOk};
ghost use Rattle.lalrpop_norm_tree_names.specs.NewLifetimes.{BeginsWith, IsLifetimeOf, numbered_lifetime};

use crate::names::{Lifetime, TypeParameter};
use shared_text::{Atom, NoMemory};
use std::alloc::Global;

/// The lifetime of a reference: a new one where it has none.
pub fn lifetime_or_new(
    lifetime: Option<Lifetime>,
    alloc: Global,
    prefix: &str,
    parameters: &mut Vec<TypeParameter>,
) -> Result<Lifetime, NoMemory>
    ensures named { IfOk result (λ l. IsLifetimeOf prefix.now lifetime parameters.old.items l parameters.new.items) }
    ensures begins { BeginsWith parameters.new.items parameters.old.items }
{
    match lifetime {
        Some(lifetime) => Ok(lifetime),
        None => new_lifetime(alloc, prefix, parameters),
    }
}

/// A lifetime that has the number of parameters in its name, and is one more parameter. The only error is a failed allocation.
pub fn new_lifetime(
    alloc: Global,
    prefix: &str,
    parameters: &mut Vec<TypeParameter>,
) -> Result<Lifetime, NoMemory>
    ensures named { IfOk result (λ l. l ≡ numbered_lifetime prefix.now (length parameters.old.items)) }
    ensures added { IfOk result (λ l. parameters.new.items ≡ parameters.old.items ++ TypeParameter.Lifetime l ∷ []) }
    ensures begins { BeginsWith parameters.new.items parameters.old.items }
{
    let name = numbered_name(alloc, prefix, parameters.len())?;
    parameters.push(TypeParameter::Lifetime(Lifetime(name.again())))?;
    Ok(Lifetime(name))
}

/// `'`, the prefix and a number. The only error is a failed allocation.
fn numbered_name(alloc: Global, prefix: &str, number: usize) -> Result<Atom, NoMemory>
    ensures { IfOk result (λ a. a ≡ (numbered_lifetime prefix.now number).0) }
{
    let text = format!(in alloc; "'{prefix}{number}")?;
    Atom::new(alloc, text.as_str())
}
