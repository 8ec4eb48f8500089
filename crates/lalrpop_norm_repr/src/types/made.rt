//! Types that a table makes.
ghost use Rattle.std.specs.Prelude.{◌≡◌, [], ◌∷◌, ◌++◌, map, Some, None, codes, unwrap_or, option_map, IfOk, false};
ghost use Rattle.lalrpop_norm_tree_parts.specs.Paths.{path_view};
ghost use Rattle.lalrpop_norm_tree_parts.specs.Reprs.{repr_view, reprs_view, repr_and, no_reprs, unit_type, static_str};
ghost use Rattle.lalrpop_norm_repr.specs.Tables.{rows, type_table, new_table, location_type, user_error_type, spanned, util_type};
ghost use Rattle.lalrpop_norm_tree_names.specs.declared.names.TerminalString.TheVariants.{Error};

use super::Types;
use lalrpop_norm_tree::grammar::parse_tree::{Atom, NoMemory, Path, TerminalString};
use lalrpop_norm_tree::grammar::repr::{NominalTypeRepr, TypeRepr};
use std::alloc::Global;
use std::collections::BTreeMap;

impl Types {
    /// A table that lists only the error terminal: `prefix` begins the name of the crate that the parser uses,
    /// `location` and `error` are the declared types, `token` is that of a token. The only error is a failed allocation.
    pub fn new(
        alloc: Global,
        prefix: &str,
        location: Option<TypeRepr>,
        error: Option<TypeRepr>,
        token: TypeRepr,
    ) -> Result<Types, NoMemory>
        ensures { IfOk result (λ t. type_table t
            ≡ new_table prefix.now (option_map repr_view location) (option_map repr_view error) (repr_view token)) }
    {
        let known = location_or_unit(alloc, &location)?;
        let thrown = error_or_text(alloc, &error)?;
        let parse_error_type = util(alloc, prefix, "ParseError", &known, &token, &thrown)?;
        let error_recovery_type = util(alloc, prefix, "ErrorRecovery", &known, &token, &thrown)?;
        let terminal_types = error_row(alloc, &error_recovery_type)?;
        let nonterminal_types = BTreeMap::new(alloc);
        Ok(Types {
            alloc,
            terminal_token_type: token,
            terminal_loc_type: location,
            error_type: error,
            terminal_types,
            nonterminal_types,
            parse_error_type,
            error_recovery_type,
        })
    }

    /// The type of a location: a copy, or the unit type if none is declared. The only error is a failed allocation.
    pub fn terminal_loc_type(&self) -> Result<TypeRepr, NoMemory>
        ensures { IfOk result (λ t. repr_view t ≡ location_type (type_table self.now)) }
    {
        location_or_unit(self.alloc, &self.terminal_loc_type)
    }

    /// The type of the user's errors: a copy, or `&'static str` if none is declared. The only error is a failed allocation.
    pub fn error_type(&self) -> Result<TypeRepr, NoMemory>
        ensures { IfOk result (λ t. repr_view t ≡ user_error_type (type_table self.now)) }
    {
        error_or_text(self.alloc, &self.error_type)
    }

    /// Copies of the listed types, in the order of their terminals. The only error is a failed allocation.
    pub fn terminal_types(&self) -> Result<Vec<TypeRepr>, NoMemory>
        ensures { IfOk result (λ ts. map repr_view ts.items ≡ map (λ r. r.1) (type_table self.now).terminals) }
    {
        let mut types = Vec::new(self.alloc);
        for ty in self.terminal_types.values() {
            types.push(ty.clone()?)?;
        }
        Ok(types)
    }

    /// Copies of the types of the nonterminals, in the order of their names. The only error is a failed allocation.
    pub fn nonterminal_types(&self) -> Result<Vec<TypeRepr>, NoMemory>
        ensures { IfOk result (λ ts. map repr_view ts.items ≡ map (λ r. r.1) (type_table self.now).nonterminals) }
    {
        let mut types = Vec::new(self.alloc);
        for ty in self.nonterminal_types.values() {
            types.push(ty.clone()?)?;
        }
        Ok(types)
    }

    /// `(L, T, L)`, of a token between two locations. The only error is a failed allocation.
    pub fn triple_type(&self) -> Result<TypeRepr, NoMemory>
        ensures { IfOk result (λ t. repr_view t ≡ spanned (location_type (type_table self.now)) (type_table self.now).token) }
    {
        let token = self.terminal_token_type.clone()?;
        self.spanned_type(token)
    }

    /// `(L, T, L)`, of the type between two locations. The only error is a failed allocation.
    pub fn spanned_type(&self, ty: TypeRepr) -> Result<TypeRepr, NoMemory>
        ensures { IfOk result (λ t. repr_view t ≡ spanned (location_type (type_table self.now)) (repr_view ty)) }
    {
        let before = self.terminal_loc_type()?;
        let after = self.terminal_loc_type()?;
        let types = three(self.alloc, before, ty, after)?;
        Ok(TypeRepr::Tuple(types))
    }
}

/// A table of the error terminal alone.
fn error_row(
    alloc: Global,
    recovery: &TypeRepr,
) -> Result<BTreeMap<TerminalString, TypeRepr>, NoMemory>
    ensures { IfOk result (λ m. rows repr_view m ≡ (Error, repr_view recovery.now) ∷ []) }
{
    let listed = recovery.clone()?;
    let mut row = BTreeMap::new(alloc);
    row.insert(TerminalString::Error, listed)?;
    Ok(row)
}

fn location_or_unit(alloc: Global, location: &Option<TypeRepr>) -> Result<TypeRepr, NoMemory>
    ensures { IfOk result (λ t. repr_view t ≡ unwrap_or (option_map repr_view location.now) unit_type) }
{
    match location {
        Some(location) => Ok(location.clone()?),
        None => {
            let types = Vec::new(alloc);
            Ok(TypeRepr::Tuple(types))
        }
    }
}

fn error_or_text(alloc: Global, error: &Option<TypeRepr>) -> Result<TypeRepr, NoMemory>
    ensures { IfOk result (λ t. repr_view t ≡ unwrap_or (option_map repr_view error.now) static_str) }
{
    match error {
        Some(error) => Ok(error.clone()?),
        None => Ok(TypeRepr::static_str(alloc)?),
    }
}

/// `{prefix}lalrpop_util::Name<L, T, E>`.
fn util(
    alloc: Global,
    prefix: &str,
    name: &str,
    location: &TypeRepr,
    token: &TypeRepr,
    error: &TypeRepr,
) -> Result<TypeRepr, NoMemory>
    ensures { IfOk result (λ t. repr_view t
        ≡ util_type prefix.now name.now (repr_view location.now) (repr_view token.now) (repr_view error.now)) }
{
    let path = util_path(alloc, prefix, name)?;
    let first = location.clone()?;
    let second = token.clone()?;
    let third = error.clone()?;
    let types = three(alloc, first, second, third)?;
    Ok(TypeRepr::Nominal(NominalTypeRepr { path, types }))
}

/// `{prefix}lalrpop_util::Name`.
fn util_path(alloc: Global, prefix: &str, name: &str) -> Result<Path, NoMemory>
    ensures { IfOk result (λ p. path_view p ≡ record { absolute = false; ids = (prefix.now ++ codes "lalrpop_util") ∷ name.now ∷ [] }) }
{
    let mut module = String::from_str(alloc, prefix)?;
    module.push_str("lalrpop_util")?;
    let first = Atom::new(alloc, module.as_str())?;
    let second = Atom::new(alloc, name)?;
    let mut ids = Vec::with_capacity(alloc, 2)?;
    ids.push(first)?;
    ids.push(second)?;
    Ok(Path {
        absolute: false,
        ids,
    })
}

fn three(
    alloc: Global,
    first: TypeRepr,
    second: TypeRepr,
    third: TypeRepr,
) -> Result<Vec<TypeRepr>, NoMemory>
    ensures { IfOk result (λ ts. reprs_view ts.items
        ≡ repr_and (repr_view first) (repr_and (repr_view second) (repr_and (repr_view third) no_reprs))) }
{
    let mut types = Vec::with_capacity(alloc, 3)?;
    types.push(first)?;
    types.push(second)?;
    types.push(third)?;
    Ok(types)
}
