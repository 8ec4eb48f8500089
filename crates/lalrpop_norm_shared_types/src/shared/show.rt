//! The texts of types that share their parts: those of lowered types.
ghost use Rattle.std.specs.Prelude.{Some, codes, ◌++◌};
ghost use Rattle.std.specs.Fmt.{WritesOnOk};
ghost use Rattle.lalrpop_norm_tree_parts.specs.TypeTexts.{repr_text, applied_text, reference_text};
ghost use Rattle.lalrpop_norm_shared_types.specs.Shared.{shared_view, applied_path_view};

use super::{AppliedPath, SharedType, TypeNode};
use lalrpop_norm_tree::grammar::parse_tree::{Atom, Lifetime};
use lalrpop_norm_tree_parts::names::show::show_reference;
use lalrpop_norm_tree_parts::path::show::show_signature;
use lalrpop_norm_tree_parts::show::{show_angled, show_between, show_return};
use std::fmt;

impl fmt::Display for SharedType {
    ghost output = { λ t. Some (repr_text (shared_view t)) };

    #[cycle(show)]
    fn fmt<W: fmt::Write>(&self, f: &mut fmt::Formatter<W>) -> fmt::Result {
        match &*self.node {
            TypeNode::Tuple(types) => show_between(types, f),
            TypeNode::Slice(inner) => show_slice(inner, f),
            TypeNode::Nominal(nominal) => fmt::Display::fmt(nominal, f),
            TypeNode::Associated { type_parameter, id } => {
                show_associated(type_parameter, id, f)
            }
            TypeNode::Lifetime(lifetime) => fmt::Display::fmt(lifetime, f),
            TypeNode::Ref {
                lifetime,
                mutable,
                referent,
            } => show_referent(lifetime, *mutable, referent, f),
            TypeNode::TraitObject(nominal) => show_trait_object(nominal, f),
            TypeNode::Fn {
                forall,
                path,
                parameters,
                ret,
            } => {
                show_signature(forall, path, parameters, f)?;
                show_return(ret, f)
            }
        }
    }
}

impl fmt::Display for AppliedPath {
    ghost output = { λ n. Some (applied_text (applied_path_view n)) };

    #[cycle(show)]
    fn fmt<W: fmt::Write>(&self, f: &mut fmt::Formatter<W>) -> fmt::Result {
        fmt::Display::fmt(&self.path, f)?;
        show_angled(&self.types, f)
    }
}

/// `[T]`.
#[cycle(show)]
fn show_slice<W: fmt::Write>(inner: &SharedType, f: &mut fmt::Formatter<W>) -> fmt::Result
    ensures { WritesOnOk W.write_str_gives f.old result
        (codes "[" ++ repr_text (shared_view inner.now) ++ codes "]") f.new }
{
    f.write_str("[")?;
    fmt::Display::fmt(inner, f)?;
    f.write_str("]")
}

/// `&'a mut T`.
#[cycle(show)]
fn show_referent<W: fmt::Write>(
    lifetime: &Option<Lifetime>,
    mutable: bool,
    referent: &SharedType,
    f: &mut fmt::Formatter<W>,
) -> fmt::Result
    ensures { WritesOnOk W.write_str_gives f.old result
        (reference_text lifetime.now mutable ++ repr_text (shared_view referent.now)) f.new }
{
    show_reference(lifetime, mutable, f)?;
    fmt::Display::fmt(referent, f)
}

/// `dyn P<A, B>`.
#[cycle(show)]
fn show_trait_object<W: fmt::Write>(nominal: &AppliedPath, f: &mut fmt::Formatter<W>) -> fmt::Result
    ensures { WritesOnOk W.write_str_gives f.old result
        (codes "dyn " ++ applied_text (applied_path_view nominal.now)) f.new }
{
    f.write_str("dyn ")?;
    fmt::Display::fmt(nominal, f)
}

/// `T::Id`.
fn show_associated<W: fmt::Write>(
    type_parameter: &Atom,
    id: &Atom,
    f: &mut fmt::Formatter<W>,
) -> fmt::Result
    ensures { WritesOnOk W.write_str_gives f.old result
        (type_parameter.now ++ codes "::" ++ id.now) f.new }
{
    fmt::Display::fmt(type_parameter, f)?;
    f.write_str("::")?;
    fmt::Display::fmt(id, f)
}
