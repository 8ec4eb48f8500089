//! The symbols whose values a group gives.
ghost use Rattle.std.specs.Prelude.{◌≡◌, ◌++◌, ◌∷◌, [], IfOk, OnOk, map};
ghost use Rattle.lalrpop_norm_tree.specs.Symbols.{kind_view, parts_view};
ghost use Rattle.lalrpop_norm_tree.specs.Types.{of_symbol, type_view};
ghost use Rattle.lalrpop_norm_model.specs.MadeRules.{bare_or_tuple_code, group_sources, type_of_kind};
ghost use Rattle.lalrpop_norm_model.specs.Replaced.{all_replaced};
ghost use Rattle.lalrpop_norm_macro_expand_rules.specs.Sources.{types_code};

use lalrpop_norm_common::norm_util::sources;
use lalrpop_norm_tree::grammar::parse_tree::{NoMemory, Symbol, SymbolKind, TypeRef};
use std::alloc::Global;

fn add_type(types: &mut Vec<TypeRef>, kind: &SymbolKind) -> Result<(), NoMemory>
    ensures { OnOk result (map type_view types.new.items ≡ map type_view types.old.items ++ of_symbol (kind_view kind.now) ∷ []) }
{
    types.push(TypeRef::OfSymbol(kind.clone()?))?;
    Ok(())
}

fn types_of(alloc: Global, sources: &[(usize, &Symbol)]) -> Result<Vec<TypeRef>, NoMemory>
    ensures { IfOk result (λ ts. map type_view ts.items ≡ map (λ t. of_symbol (kind_view t.1.now.kind)) sources.now) }
{
    let mut types = Vec::with_capacity(alloc, sources.len())?;
    for source in sources {
        add_type(&mut types, &source.1.kind)?;
    }
    Ok(types)
}

/// The types of the selected symbols, if there are any, else of all.
fn source_types(alloc: Global, symbols: &[Symbol]) -> Result<Vec<TypeRef>, NoMemory>
    requires { all_replaced (parts_view symbols.now) ≡ parts_view symbols.now }
    ensures { IfOk result (λ ts. map type_view ts.items ≡ map type_of_kind (group_sources (parts_view symbols.now))) }
{
    let sources = sources(alloc, symbols)?;
    let types = types_of(alloc, &sources)?;
    Ok(types)
}

/// The action code that gives one value, or any other number of them as a tuple.
fn types_code(types: &[TypeRef]) -> &'static str
    ensures { result.now ≡ types_code (map type_view types.now) }
{
    if types.len() == 1 { "<>" } else { "(<>)" }
}

/// The types of the values that a group of these symbols gives, and the action code that gives them.
pub(crate) fn group_values(
    alloc: Global,
    symbols: &[Symbol],
) -> Result<(Vec<TypeRef>, &'static str), NoMemory>
    requires { all_replaced (parts_view symbols.now) ≡ parts_view symbols.now }
    ensures types { IfOk result (λ v. map type_view v.0.items ≡ map type_of_kind (group_sources (parts_view symbols.now))) }
    ensures code { IfOk result (λ v. v.1.now ≡ bare_or_tuple_code (group_sources (parts_view symbols.now))) }
{
    let types = source_types(alloc, symbols)?;
    let code = types_code(&types);
    Ok((types, code))
}
