//! The texts of visibilities.
ghost use Rattle.std.specs.Prelude.{Some};
ghost use Rattle.lalrpop_norm_tree.specs.Items.{visibility_view};
ghost use Rattle.lalrpop_norm_tree.specs.VisibilityTexts.{visibility_text};

use super::Visibility;
use std::fmt;

impl fmt::Display for Visibility {
    ghost output = { λ v. Some (visibility_text (visibility_view v)) };

    fn fmt<W: fmt::Write>(&self, f: &mut fmt::Formatter<W>) -> fmt::Result {
        match self {
            Visibility::Pub(None) => f.write_str("pub "),
            Visibility::Pub(Some(path)) => {
                f.write_str("pub(")?;
                fmt::Display::fmt(path, f)?;
                f.write_str(") ")
            }
            Visibility::PubIn(path) => {
                f.write_str("pub(in ")?;
                fmt::Display::fmt(path, f)?;
                f.write_str(") ")
            }
            Visibility::Priv => Ok(()),
        }
    }
}
