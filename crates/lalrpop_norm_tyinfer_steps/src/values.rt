//! What symbols give and written types mean by a table of types.
ghost use Rattle.std.specs.Prelude.{◌≡◌, Some, IfOk, option_map};
ghost use Rattle.lalrpop_norm_tree_parts.specs.Paths.{path_view};
ghost use Rattle.lalrpop_norm_tree_parts.specs.Reprs as lowered;
ghost use Rattle.lalrpop_norm_tree_parts.specs.Reprs.{repr_view, maybe_repr_of};
ghost use Rattle.lalrpop_norm_shared_types.specs.Shared.{shared_view, applied_path_view, shared_all};
ghost use Rattle.lalrpop_norm_tree.specs.Symbols.{kind_view};
ghost use Rattle.lalrpop_norm_tree.specs.Traversal.{wrapped_kind};
ghost use Rattle.lalrpop_norm_tree.specs.Types.{type_view, types_view, maybe_of};
ghost use Rattle.lalrpop_norm_model.specs.TypeRelation.{associated_in, is_parameter_of, is_type_parameter};
ghost use Rattle.lalrpop_norm_model.specs.TypeTables.{leaf_type, path_value};
ghost use Rattle.lalrpop_norm_tyinfer_steps.specs.Numbered.{numbered_table};
ghost use Rattle.lalrpop_norm_tyinfer_steps.specs.TableValues.{kind_in, table_types, type_in, types_in, return_in};

use crate::numbered::Numbered;
use crate::same::is_same_name;
use crate::type_levels::{
    applied_to, associated_type, function_of, lifetime_type, made, named_type, reference_type,
};
use lalrpop_norm_repr::grammar::repr::TypeRepr;
use lalrpop_norm_shared_types::shared::{AppliedPath, SharedType, TypeNode};
use lalrpop_norm_tree::grammar::parse_tree::{
    Atom, GrammarSymbol, Lifetime, NoMemory, Path, SymbolKind, TypeParameter, TypeRef,
};
use std::alloc::Global;

/// What a symbol is under wrappers: under `<..>`, a name and a tuple pattern. Any other is its own.
pub(crate) fn under_wrappers(kind: &SymbolKind) -> &SymbolKind
    ensures { kind_view result.now ≡ wrapped_kind (kind_view kind.now) }
{
    match kind.as_bound() {
        Some((_, symbol)) => &symbol.unwrapped().kind,
        None => match kind.as_selected() {
            Some(symbol) => &symbol.unwrapped().kind,
            None => kind,
        },
    }
}

/// The type that a symbol gives, if it gives one by the table: one more owner of that of a nonterminal.
pub fn kind_value(
    alloc: Global,
    types: &Numbered,
    kind: &SymbolKind,
) -> Result<Option<SharedType>, NoMemory>
    ensures { IfOk result (λ o. option_map shared_view o ≡ kind_in (numbered_table types.now) (kind_view kind.now)) }
{
    given_type(alloc, types, under_wrappers(kind))
}

/// The type that a grammar symbol has by the table; nothing for any other.
fn given_type(
    alloc: Global,
    types: &Numbered,
    kind: &SymbolKind,
) -> Result<Option<SharedType>, NoMemory>
    ensures { IfOk result (λ o. option_map shared_view o ≡ leaf_type (table_types (numbered_table types.now)) (kind_view kind.now)) }
{
    match kind.as_grammar_symbol() {
        Some(GrammarSymbol::Terminal(terminal)) => copied(alloc, types.terminal_type(terminal)),
        Some(GrammarSymbol::Nonterminal(name)) => shared(types.lookup_nonterminal_type(name)),
        Some(GrammarSymbol::Error) => copied(alloc, types.error_recovery_type()),
        None => Ok(None),
    }
}

/// A copy of the type.
fn copied(alloc: Global, ty: &TypeRepr) -> Result<Option<SharedType>, NoMemory>
    ensures { IfOk result (λ o. option_map shared_view o ≡ Some (repr_view ty.now)) }
{
    Ok(Some(SharedType::of(alloc, ty)?))
}

/// One more owner of the type, if it is there.
fn shared(ty: Option<&SharedType>) -> Result<Option<SharedType>, NoMemory>
    ensures { IfOk result (λ o. option_map shared_view o ≡ option_map (λ t. shared_view t.now) ty.entry) }
{
    match ty {
        Some(ty) => Ok(Some(ty.clone()?)),
        None => Ok(None),
    }
}

fn is_parameter_of(name: &Atom, parameter: &TypeParameter) -> bool
    ensures { result ≡ is_parameter_of name.now parameter.now }
{
    match parameter {
        TypeParameter::Id(id) => is_same_name(id, name),
        TypeParameter::Lifetime(_) => false,
    }
}

fn is_type_parameter(parameters: &[TypeParameter], name: &Atom) -> bool
    ensures { result ≡ is_type_parameter parameters.now name.now }
{
    for parameter in parameters {
        if is_parameter_of(name, parameter) {
            return true;
        }
    }
    false
}

/// The associated type that a path is: its type parameter, and its name.
pub(crate) fn associated<'a>(
    parameters: &[TypeParameter],
    path: &'a Path,
) -> Option<(&'a Atom, &'a Atom)>
    ensures { option_map (λ a. (a.0.now, a.1.now)) result ≡ associated_in parameters.now (path_view path.now).ids }
{
    match path.ids.as_slice() {
        [first, second] => {
            if is_type_parameter(parameters, first) {
                Some((first, second))
            } else {
                None
            }
        }
        _ => None,
    }
}

/// The type that a written one means, if each symbol in it gives a type by the table.
#[cycle(value)]
pub fn type_value(
    alloc: Global,
    parameters: &[TypeParameter],
    types: &Numbered,
    written: &TypeRef,
) -> Result<Option<SharedType>, NoMemory>
    ensures { IfOk result (λ o. option_map shared_view o ≡ type_in parameters.now (numbered_table types.now) (type_view written.now)) }
{
    match written {
        TypeRef::Tuple(inner) => tuple_value(alloc, parameters, types, inner),
        TypeRef::Slice(inner) => slice_value(alloc, parameters, types, inner),
        TypeRef::Nominal { path, types: inner } => {
            path_value(alloc, parameters, types, path, inner)
        }
        TypeRef::Ref {
            lifetime,
            mutable,
            referent,
        } => reference_value(alloc, parameters, types, lifetime, *mutable, referent),
        TypeRef::TraitObject { path, types: inner } => {
            object_value(alloc, parameters, types, path, inner)
        }
        TypeRef::Lifetime(lifetime) => lifetime_type(alloc, lifetime),
        TypeRef::Id(id) => named_type(alloc, id),
        TypeRef::OfSymbol(kind) => kind_value(alloc, types, kind),
        TypeRef::Fn {
            forall,
            path,
            parameters: inner,
            ret,
        } => {
            let inner = all_values(alloc, parameters, types, inner)?;
            let ret = return_value(alloc, parameters, types, ret)?;
            function_of(alloc, forall, path, inner, ret)
        }
    }
}

#[cycle(value)]
fn slice_value(
    alloc: Global,
    parameters: &[TypeParameter],
    types: &Numbered,
    inner: &TypeRef,
) -> Result<Option<SharedType>, NoMemory>
    ensures { IfOk result (λ o. option_map shared_view o
        ≡ option_map lowered.slice (type_in parameters.now (numbered_table types.now) (type_view inner.now))) }
{
    match type_value(alloc, parameters, types, inner)? {
        Some(ty) => made(alloc, TypeNode::Slice(ty)),
        None => Ok(None),
    }
}

#[cycle(value)]
fn reference_value(
    alloc: Global,
    parameters: &[TypeParameter],
    types: &Numbered,
    lifetime: &Option<Lifetime>,
    mutable: bool,
    inner: &TypeRef,
) -> Result<Option<SharedType>, NoMemory>
    ensures { IfOk result (λ o. option_map shared_view o
        ≡ option_map (lowered.reference lifetime.now mutable) (type_in parameters.now (numbered_table types.now) (type_view inner.now))) }
{
    match type_value(alloc, parameters, types, inner)? {
        Some(referent) => reference_type(alloc, lifetime, mutable, referent),
        None => Ok(None),
    }
}

#[cycle(value)]
fn tuple_value(
    alloc: Global,
    parameters: &[TypeParameter],
    types: &Numbered,
    inner: &[TypeRef],
) -> Result<Option<SharedType>, NoMemory>
    ensures { IfOk result (λ o. option_map shared_view o
        ≡ option_map lowered.tuple (types_in parameters.now (numbered_table types.now) (types_view inner.now))) }
{
    match all_values(alloc, parameters, types, inner)? {
        Some(inner) => made(alloc, TypeNode::Tuple(inner)),
        None => Ok(None),
    }
}

/// A path with its arguments; of an associated type these are not read.
#[cycle(value)]
fn path_value(
    alloc: Global,
    parameters: &[TypeParameter],
    types: &Numbered,
    path: &Path,
    inner: &[TypeRef],
) -> Result<Option<SharedType>, NoMemory>
    ensures { IfOk result (λ o. option_map shared_view o
        ≡ path_value (associated_in parameters.now (path_view path.now).ids) (path_view path.now)
        (types_in parameters.now (numbered_table types.now) (types_view inner.now))) }
{
    match associated(parameters, path) {
        Some((parameter, id)) => associated_type(alloc, parameter, id),
        None => nominal_value(alloc, parameters, types, path, inner),
    }
}

#[cycle(value)]
fn applied_value(
    alloc: Global,
    parameters: &[TypeParameter],
    types: &Numbered,
    path: &Path,
    inner: &[TypeRef],
) -> Result<Option<AppliedPath>, NoMemory>
    ensures { IfOk result (λ o. option_map applied_path_view o
        ≡ option_map (λ xs. (path_view path.now, xs)) (types_in parameters.now (numbered_table types.now) (types_view inner.now))) }
{
    match all_values(alloc, parameters, types, inner)? {
        Some(types) => Ok(Some(applied_to(path, types)?)),
        None => Ok(None),
    }
}

#[cycle(value)]
fn nominal_value(
    alloc: Global,
    parameters: &[TypeParameter],
    types: &Numbered,
    path: &Path,
    inner: &[TypeRef],
) -> Result<Option<SharedType>, NoMemory>
    ensures { IfOk result (λ o. option_map shared_view o
        ≡ option_map (lowered.nominal (path_view path.now)) (types_in parameters.now (numbered_table types.now) (types_view inner.now))) }
{
    match applied_value(alloc, parameters, types, path, inner)? {
        Some(applied) => made(alloc, TypeNode::Nominal(applied)),
        None => Ok(None),
    }
}

#[cycle(value)]
fn object_value(
    alloc: Global,
    parameters: &[TypeParameter],
    types: &Numbered,
    path: &Path,
    inner: &[TypeRef],
) -> Result<Option<SharedType>, NoMemory>
    ensures { IfOk result (λ o. option_map shared_view o
        ≡ option_map (lowered.trait_object (path_view path.now))
        (types_in parameters.now (numbered_table types.now) (types_view inner.now))) }
{
    match applied_value(alloc, parameters, types, path, inner)? {
        Some(applied) => made(alloc, TypeNode::TraitObject(applied)),
        None => Ok(None),
    }
}

#[cycle(value)]
fn return_value(
    alloc: Global,
    parameters: &[TypeParameter],
    types: &Numbered,
    ret: &Option<Box<TypeRef>>,
) -> Result<Option<Option<SharedType>>, NoMemory>
    ensures { IfOk result (λ o. option_map (λ r. maybe_repr_of (option_map shared_view r)) o
        ≡ return_in parameters.now (numbered_table types.now) (maybe_of (option_map (λ b. type_view b.value) ret.now))) }
{
    match ret {
        None => Ok(Some(None)),
        Some(written) => match type_value(alloc, parameters, types, written)? {
            Some(ty) => Ok(Some(Some(ty))),
            None => Ok(None),
        },
    }
}

/// The types that these mean, if each means one.
#[cycle(value)]
fn all_values(
    alloc: Global,
    parameters: &[TypeParameter],
    types: &Numbered,
    written: &[TypeRef],
) -> Result<Option<Vec<SharedType>>, NoMemory>
    ensures { IfOk result (λ o. option_map (λ ts. shared_all ts.items) o
        ≡ types_in parameters.now (numbered_table types.now) (types_view written.now)) }
{
    let mut values = Vec::with_capacity(alloc, written.len())?;
    for inner in written {
        match type_value(alloc, parameters, types, inner)? {
            Some(ty) => values.push(ty)?,
            None => return Ok(None),
        }
    }
    Ok(Some(values))
}
