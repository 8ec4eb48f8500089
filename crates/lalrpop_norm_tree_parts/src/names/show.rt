//! The texts that names give to types: what is quantified, and what a reference begins with.
ghost use Rattle.std.specs.Prelude.{map, codes};
ghost use Rattle.std.specs.Fmt.{WritesOnOk};
ghost use Rattle.lalrpop_norm_tree_names.specs.Texts.{joined, type_parameter_text};
ghost use Rattle.lalrpop_norm_tree_parts.specs.LoweredTexts.{binder_text};
ghost use Rattle.lalrpop_norm_tree_parts.specs.TypeTexts.{forall_text, reference_text};

use super::{Lifetime, TypeParameter};
use crate::show::show_joined;
use std::fmt;

/// Writes what precedes the referent of a reference. The only error is the formatter's.
pub fn show_reference<W: fmt::Write>(
    lifetime: &Option<Lifetime>,
    mutable: bool,
    f: &mut fmt::Formatter<W>,
) -> fmt::Result
    ensures { WritesOnOk W.write_str_gives f.old result (reference_text lifetime.now mutable) f.new }
{
    f.write_str("&")?;
    if let Some(lifetime) = lifetime {
        fmt::Display::fmt(lifetime, f)?;
        f.write_str(" ")?;
    }
    if mutable {
        f.write_str("mut ")?;
    }
    Ok(())
}

/// `for<..> `, where there is a parameter.
pub(crate) fn show_forall<W: fmt::Write>(
    parameters: &Vec<TypeParameter>,
    f: &mut fmt::Formatter<W>,
) -> fmt::Result
    ensures { WritesOnOk W.write_str_gives f.old result (forall_text parameters.now.items) f.new }
{
    if parameters.is_empty() {
        return Ok(());
    }
    show_binder(parameters, f)
}

/// `for<..> `, also where there is no parameter.
pub(crate) fn show_binder<W: fmt::Write>(
    parameters: &Vec<TypeParameter>,
    f: &mut fmt::Formatter<W>,
) -> fmt::Result
    ensures { WritesOnOk W.write_str_gives f.old result (binder_text parameters.now.items) f.new }
{
    f.write_str("for<")?;
    show_parameters(parameters, f)?;
    f.write_str("> ")
}

/// The parameters with `, ` between each two.
fn show_parameters<W: fmt::Write>(
    parameters: &Vec<TypeParameter>,
    f: &mut fmt::Formatter<W>,
) -> fmt::Result
    ensures { WritesOnOk W.write_str_gives f.old result
        (joined (codes ", ") (map type_parameter_text parameters.now.items)) f.new }
{
    show_joined(parameters, ", ", f)
}
