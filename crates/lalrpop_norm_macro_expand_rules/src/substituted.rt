//! The arguments of a macro call, and the types of the macro's definition with the arguments substituted.
ghost use Rattle.std.specs.Prelude.{◌≡◌, ◌∷◌, [], IfOk, option_map};
ghost use Rattle.lalrpop_norm_tree_parts.specs.Accessors.{path_of};
ghost use Rattle.lalrpop_norm_tree.specs.Symbols.{kind_view, parts_view};
ghost use Rattle.lalrpop_norm_tree.specs.Types.{nominal, no_types, type_view, types_view, maybe_of};
ghost use Rattle.lalrpop_norm_model.specs.MadeRules.{type_of_name, type_substituted, types_substituted, returned_substituted};
ghost use Rattle.lalrpop_norm_model.specs.Replaced.{all_replaced};
ghost use Rattle.lalrpop_norm_macro_expand_rules.specs.Bound.{argument_in, bound_in, bound_kind, AreByNumber};

use lalrpop_norm_names::Names;
use lalrpop_norm_tree::grammar::parse_tree::{
    Atom, NoMemory, NonterminalString, Path, Symbol, SymbolKind, TypeRef,
};
use lalrpop_norm_tree_parts::names::copy::copy_type_parameters;
use std::alloc::Global;

/// The environment of a macro call: the arguments of the macro's definition, and the symbols that the call binds them to.
#[derive(Clone, Copy)]
pub struct Bindings<'a> {
    /// The names of the arguments: contract clauses mention them, and code goes by their indices.
    pub names: &'a [NonterminalString],
    /// The indices of these names.
    pub numbers: &'a Names,
    /// What they are bound to, in order.
    pub symbols: &'a [Symbol],
}

/// The symbol at the index of a name, if it is that of an argument.
pub(crate) fn symbol_bound<'a>(
    bindings: &Bindings<'a>,
    name: &NonterminalString,
) -> Option<&'a Symbol>
    ensures { option_map (λ s. s.now) result ≡ bound_in bindings.now name.now.0 }
{
    let place = bindings.numbers.number(name)?;
    bindings.symbols.get(place)
}

fn kind_bound<'a>(bindings: &Bindings<'a>, name: &NonterminalString) -> Option<&'a SymbolKind>
    ensures { option_map (λ k. kind_view k.now) result ≡ bound_kind bindings.now name.now.0 }
{
    match symbol_bound(bindings, name) {
        Some(symbol) => Some(&symbol.kind),
        None => None,
    }
}

/// The symbol that a name is bound to, if it is that of an argument.
pub(crate) fn bound_to<'a>(
    bindings: &Bindings<'a>,
    name: &NonterminalString,
) -> Option<&'a SymbolKind>
    requires numbers { AreByNumber bindings.now }
    ensures { option_map (λ k. kind_view k.now) result ≡ argument_in bindings.now name.now.0 }
{
    kind_bound(bindings, name)
}

/// What a single name in a declared type stands for: the type of the symbol that it is bound to, or else the path of that name.
fn type_of_name(alloc: Global, bindings: &Bindings, name: &Atom) -> Result<TypeRef, NoMemory>
    requires replaced { all_replaced (parts_view bindings.now.symbols.now) ≡ parts_view bindings.now.symbols.now }
    ensures { IfOk result (λ t. type_view t ≡ type_of_name name.now (bound_kind bindings.now name.now)) }
{
    let name = NonterminalString(name.clone()?);
    match kind_bound(bindings, &name) {
        Some(kind) => Ok(TypeRef::OfSymbol(kind.clone()?)),
        None => path_of_name(alloc, name.0),
    }
}

fn path_of_name(alloc: Global, name: Atom) -> Result<TypeRef, NoMemory>
    ensures { IfOk result (λ t. type_view t ≡ nominal (path_of (name ∷ [])) no_types) }
{
    let path = Path::from_id(alloc, name)?;
    let types = Vec::new(alloc);
    Ok(TypeRef::Nominal { path, types })
}

/// A type with what is at the indices of names substituted for them.
#[cycle(type_substituted)]
fn type_substituted(
    alloc: Global,
    bindings: &Bindings,
    written: &TypeRef,
) -> Result<TypeRef, NoMemory>
    requires replaced { all_replaced (parts_view bindings.now.symbols.now) ≡ parts_view bindings.now.symbols.now }
    ensures { IfOk result (λ t. type_view t ≡ type_substituted (bound_kind bindings.now) (type_view written.now)) }
{
    match written {
        TypeRef::Id(name) => type_of_name(alloc, bindings, name),
        TypeRef::Tuple(types) => Ok(TypeRef::Tuple(types_substituted(alloc, bindings, types)?)),
        TypeRef::Slice(inner) => {
            let inner = type_substituted(alloc, bindings, inner)?;
            Ok(TypeRef::Slice(Box::new(alloc, inner)?))
        }
        TypeRef::Nominal { path, types } => Ok(TypeRef::Nominal {
            path: path.clone()?,
            types: types_substituted(alloc, bindings, types)?,
        }),
        TypeRef::Ref {
            lifetime,
            mutable,
            referent,
        } => {
            let referent = type_substituted(alloc, bindings, referent)?;
            Ok(TypeRef::Ref {
                lifetime: lifetime.clone()?,
                mutable: *mutable,
                referent: Box::new(alloc, referent)?,
            })
        }
        TypeRef::TraitObject { path, types } => Ok(TypeRef::TraitObject {
            path: path.clone()?,
            types: types_substituted(alloc, bindings, types)?,
        }),
        TypeRef::Lifetime(lifetime) => Ok(TypeRef::Lifetime(lifetime.clone()?)),
        TypeRef::OfSymbol(kind) => Ok(TypeRef::OfSymbol(kind.clone()?)),
        TypeRef::Fn {
            forall,
            path,
            parameters,
            ret,
        } => Ok(TypeRef::Fn {
            forall: copy_type_parameters(forall)?,
            path: path.clone()?,
            parameters: types_substituted(alloc, bindings, parameters)?,
            ret: returned_substituted(alloc, bindings, ret)?,
        }),
    }
}

#[cycle(type_substituted)]
fn returned_substituted(
    alloc: Global,
    bindings: &Bindings,
    ret: &Option<Box<TypeRef>>,
) -> Result<Option<Box<TypeRef>>, NoMemory>
    requires replaced { all_replaced (parts_view bindings.now.symbols.now) ≡ parts_view bindings.now.symbols.now }
    ensures { IfOk result (λ r. maybe_of (option_map (λ b. type_view b.value) r)
        ≡ returned_substituted (bound_kind bindings.now) (maybe_of (option_map (λ b. type_view b.value) ret.now))) }
{
    match ret {
        None => Ok(None),
        Some(inner) => {
            let inner = type_substituted(alloc, bindings, inner)?;
            Ok(Some(Box::new(alloc, inner)?))
        }
    }
}

#[cycle(type_substituted)]
fn types_substituted(
    alloc: Global,
    bindings: &Bindings,
    types: &[TypeRef],
) -> Result<Vec<TypeRef>, NoMemory>
    requires replaced { all_replaced (parts_view bindings.now.symbols.now) ≡ parts_view bindings.now.symbols.now }
    ensures { IfOk result (λ ts. types_view ts.items ≡ types_substituted (bound_kind bindings.now) (types_view types.now)) }
{
    let mut all = Vec::with_capacity(alloc, types.len())?;
    for inner in types {
        all.push(type_substituted(alloc, bindings, inner)?)?;
    }
    Ok(all)
}

/// The declared type with the arguments substituted.
pub(crate) fn declared_type(
    alloc: Global,
    bindings: &Bindings,
    written: &TypeRef,
) -> Result<TypeRef, NoMemory>
    requires numbers { AreByNumber bindings.now }
    requires replaced { all_replaced (parts_view bindings.now.symbols.now) ≡ parts_view bindings.now.symbols.now }
    ensures { IfOk result (λ t. type_view t ≡ type_substituted (argument_in bindings.now) (type_view written.now)) }
{
    type_substituted(alloc, bindings, written)
}
