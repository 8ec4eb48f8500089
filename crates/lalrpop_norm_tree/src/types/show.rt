//! The texts of written types.
ghost use Rattle.std.specs.Prelude.{Some, codes, ◌++◌};
ghost use Rattle.std.specs.Fmt.{WritesOnOk};
ghost use Rattle.lalrpop_norm_tree_parts.specs.Paths.{path_view};
ghost use Rattle.lalrpop_norm_tree.specs.Types.{type_view, types_view};
ghost use Rattle.lalrpop_norm_tree.specs.Symbols.{kind_view};
ghost use Rattle.lalrpop_norm_tree.specs.SymbolTexts.{kind_text};
ghost use Rattle.lalrpop_norm_tree_parts.specs.TypeTexts.{angled, path_text};
ghost use Rattle.lalrpop_norm_tree.specs.WrittenTypeTexts.{type_text, type_texts};

use super::TypeRef;
use crate::symbol::SymbolKind;
use lalrpop_norm_tree_parts::names::show::show_reference;
use lalrpop_norm_tree_parts::path::Path;
use lalrpop_norm_tree_parts::path::show::show_signature;
use lalrpop_norm_tree_parts::show::{show_angled, show_between, show_return};
use std::fmt;

impl fmt::Display for TypeRef {
    ghost output = { λ t. Some (type_text (type_view t)) };

    #[cycle(show)]
    fn fmt<W: fmt::Write>(&self, f: &mut fmt::Formatter<W>) -> fmt::Result {
        match self {
            TypeRef::Tuple(types) => show_between(types, f),
            TypeRef::Slice(inner) => {
                f.write_str("[")?;
                fmt::Display::fmt(&**inner, f)?;
                f.write_str("]")
            }
            TypeRef::Nominal { path, types } => show_applied(path, types, f),
            TypeRef::Ref {
                lifetime,
                mutable,
                referent,
            } => {
                show_reference(lifetime, *mutable, f)?;
                fmt::Display::fmt(&**referent, f)
            }
            TypeRef::TraitObject { path, types } => {
                f.write_str("dyn ")?;
                show_applied(path, types, f)
            }
            TypeRef::Lifetime(lifetime) => fmt::Display::fmt(lifetime, f),
            TypeRef::Id(id) => fmt::Display::fmt(id, f),
            TypeRef::OfSymbol(symbol) => show_quoted(symbol, f),
            TypeRef::Fn {
                forall,
                path,
                parameters,
                ret,
            } => {
                show_signature(forall, path, parameters, f)?;
                show_return(ret, f)
            }
        }
    }
}

/// The path, and the types between angle brackets, where there are any.
#[cycle(show)]
fn show_applied<W: fmt::Write>(
    path: &Path,
    types: &Vec<TypeRef>,
    f: &mut fmt::Formatter<W>,
) -> fmt::Result
    ensures { WritesOnOk W.write_str_gives f.old result
        (path_text (path_view path.now) ++ angled (type_texts (types_view types.now.items))) f.new }
{
    fmt::Display::fmt(path, f)?;
    show_angled(types, f)
}

/// The symbol between backquotes.
fn show_quoted<W: fmt::Write>(symbol: &SymbolKind, f: &mut fmt::Formatter<W>) -> fmt::Result
    ensures { WritesOnOk W.write_str_gives f.old result
        (codes "`" ++ kind_text (kind_view symbol.now) ++ codes "`") f.new }
{
    f.write_str("`")?;
    fmt::Display::fmt(symbol, f)?;
    f.write_str("`")
}
