//! The table from names to indices.
ghost use Rattle.std.specs.Prelude.{◌≡◌, ◌<◌, [], length, IfOk, map};
ghost use Rattle.lalrpop_norm_names.specs.Numbers.{first_place, number_in_table, IsNumbering};

use crate::seeded::Seeded;
use lalrpop_norm_tree_names::names::NonterminalString;
use shared_text::{Atom, NoMemory};
use std::alloc::Global;
use std::collections::HashMap;

/// Up to this many names are compared one by one: that takes no longer than to hash one.
const FEW: usize = 8;

/// The indices of the names in a list: each name has the first index at which it is in the list, from 0.
///
/// A look-up takes the time of one hash and one comparison, or of a few comparisons, also for names that someone chose to make it
/// slow. No name can be added later, since it would not be in the seed of the hash.
#[derive(Drop)]
pub struct Names {
    /// The names, if there are some, and few.
    few: Vec<Atom>,
    /// Else the index of each.
    many: HashMap<Atom, usize, Seeded>,
}

impl Names {
    /// The table of the names in a list, which may hold a name more than once. The only error is a failed allocation.
    pub fn of(alloc: Global, names: &[NonterminalString]) -> Result<Names, NoMemory>
        ensures { IfOk result (IsNumbering (map (λ n. n.0) names.now)) }
    {
        if names.is_empty() {
            return Ok(no_names(alloc));
        }
        if names.len() <= FEW {
            return few_names(alloc, names);
        }
        many_names(alloc, names)
    }

    /// The index of a name, if it is in the list.
    pub fn number(&self, name: &NonterminalString) -> Option<usize>
        ensures { result ≡ number_in_table self.now name.now.0 }
    {
        if self.few.is_empty() {
            return self.many.get(&name.0).copied();
        }
        place_among(&self.few, &name.0)
    }
}

fn no_names(alloc: Global) -> Names
    ensures { IsNumbering [] result }
{
    Names {
        few: Vec::new(alloc),
        many: HashMap::with_hasher(alloc, Seeded::of_nothing()),
    }
}

fn few_names(alloc: Global, names: &[NonterminalString]) -> Result<Names, NoMemory>
    requires { 0 < length names.now }
    ensures { IfOk result (IsNumbering (map (λ n. n.0) names.now)) }
{
    let mut few = Vec::with_capacity(alloc, names.len())?;
    for name in names {
        few.push(name.0.again())?;
    }
    Ok(Names {
        few,
        many: HashMap::with_hasher(alloc, Seeded::of_nothing()),
    })
}

fn many_names(alloc: Global, names: &[NonterminalString]) -> Result<Names, NoMemory>
    ensures { IfOk result (IsNumbering (map (λ n. n.0) names.now)) }
{
    let mut many = HashMap::with_capacity_and_hasher(alloc, names.len(), Seeded::by(names))?;
    for place in (0..names.len()).rev() {
        many.insert(names[place].0.again(), place)?;
    }
    Ok(Names {
        few: Vec::new(alloc),
        many,
    })
}

/// The first index of a name, if it is in the list.
fn place_among(names: &[Atom], name: &Atom) -> Option<usize>
    ensures { result ≡ first_place names.now name.now }
{
    for place in 0..names.len() {
        if names[place] == *name {
            return Some(place);
        }
    }
    None
}
