//! The texts of bounds and where clauses.
ghost use Rattle.lalrpop_norm_tree_parts.specs.Bounds.{bound_parameter_view, bound_view, where_clause_view};
ghost use Rattle.lalrpop_norm_tree_parts.specs.BoundTexts.{bound_parameter_text, bound_text, where_clause_text};

use super::{TypeBound, TypeBoundParameter, WhereClause};
use crate::names::show::show_forall;
use crate::path::show::show_forall_path;
use crate::show::{show_angled, show_between, show_bounds, show_return};
use std::fmt;

impl<T: fmt::Display> fmt::Display for TypeBoundParameter<T> {
    ghost output = { λ p. bound_parameter_text (bound_parameter_view T.output p) };

    fn fmt<W: fmt::Write>(&self, f: &mut fmt::Formatter<W>) -> fmt::Result {
        match self {
            TypeBoundParameter::Lifetime(lifetime) => fmt::Display::fmt(lifetime, f),
            TypeBoundParameter::TypeParameter(ty) => fmt::Display::fmt(ty, f),
            TypeBoundParameter::Associated(id, ty) => {
                fmt::Display::fmt(id, f)?;
                f.write_str(" = ")?;
                fmt::Display::fmt(ty, f)
            }
        }
    }
}

impl<T: fmt::Display> fmt::Display for TypeBound<T> {
    ghost output = { λ b. bound_text (bound_view T.output b) };

    fn fmt<W: fmt::Write>(&self, f: &mut fmt::Formatter<W>) -> fmt::Result {
        match self {
            TypeBound::Lifetime(lifetime) => fmt::Display::fmt(lifetime, f),
            TypeBound::Fn {
                forall,
                path,
                parameters,
                ret,
            } => {
                show_forall_path(forall, path, f)?;
                show_between(parameters, f)?;
                show_return(ret, f)
            }
            TypeBound::Trait {
                forall,
                path,
                parameters,
            } => {
                show_forall_path(forall, path, f)?;
                show_angled(parameters, f)
            }
        }
    }
}

impl<T: fmt::Display> fmt::Display for WhereClause<T> {
    ghost output = { λ w. where_clause_text (where_clause_view T.output w) };

    fn fmt<W: fmt::Write>(&self, f: &mut fmt::Formatter<W>) -> fmt::Result {
        match self {
            WhereClause::Lifetime { lifetime, bounds } => {
                fmt::Display::fmt(lifetime, f)?;
                f.write_str(":")?;
                show_bounds(bounds, f)
            }
            WhereClause::OfType { forall, ty, bounds } => {
                show_forall(forall, f)?;
                fmt::Display::fmt(ty, f)?;
                f.write_str(": ")?;
                show_bounds(bounds, f)
            }
        }
    }
}
