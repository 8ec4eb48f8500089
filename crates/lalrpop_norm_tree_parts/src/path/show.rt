//! The texts of a path and of a function type's signature.
ghost use Rattle.std.specs.Prelude.{Some, ◌++◌, map};
ghost use Rattle.std.specs.Fmt.{DisplaysOnOk, WritesOnOk};
ghost use Rattle.lalrpop_norm_tree_parts.specs.KnownTexts.{signature_known};
ghost use Rattle.lalrpop_norm_tree_parts.specs.Paths.{path_view};
ghost use Rattle.lalrpop_norm_tree_names.specs.Texts.{joined};
ghost use Rattle.lalrpop_norm_tree_parts.specs.TypeTexts.{forall_text, path_text};

use super::Path;
use crate::names::TypeParameter;
use crate::names::show::show_forall;
use crate::show::{show_between, show_joined};
use shared_text::Atom;
use std::fmt;

impl fmt::Display for Path {
    ghost output = { λ p. Some (path_text (path_view p)) };

    fn fmt<W: fmt::Write>(&self, f: &mut fmt::Formatter<W>) -> fmt::Result {
        if self.absolute {
            f.write_str("::")?;
        }
        show_names(&self.ids, "::", f)
    }
}

/// Writes the path, after what it is quantified over. The only error is the formatter's.
pub fn show_forall_path<W: fmt::Write>(
    forall: &Vec<TypeParameter>,
    path: &Path,
    f: &mut fmt::Formatter<W>,
) -> fmt::Result
    ensures { WritesOnOk W.write_str_gives f.old result
        (forall_text forall.now.items ++ path_text (path_view path.now)) f.new }
{
    show_forall(forall, f)?;
    fmt::Display::fmt(path, f)
}

/// Writes `dyn for<'a> P(A, B)`: a function type up to its result. The only error is the formatter's.
pub fn show_signature<T: fmt::Display, W: fmt::Write>(
    forall: &Vec<TypeParameter>,
    path: &Path,
    parameters: &Vec<T>,
    f: &mut fmt::Formatter<W>,
) -> fmt::Result
    ensures { DisplaysOnOk W.write_str_gives f.old result
        (signature_known forall.now.items (path_view path.now) (map T.output parameters.now.items)) f.new }
{
    f.write_str("dyn ")?;
    show_forall_path(forall, path, f)?;
    show_between(parameters, f)
}

/// The names with the separator between each two.
fn show_names<W: fmt::Write>(
    names: &Vec<Atom>,
    separator: &str,
    f: &mut fmt::Formatter<W>,
) -> fmt::Result
    ensures { WritesOnOk W.write_str_gives f.old result (joined separator.now names.now.items) f.new }
{
    show_joined(names, separator, f)
}
