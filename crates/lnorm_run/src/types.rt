//! Lowered types as they are printed: those with parts of their own, and those that share them.
ghost use Rattle.std.specs.Prelude.{◌≡◌, ◌++◌, OnOk, string_bytes};
ghost use Rattle.lalrpop_norm_tree_parts.specs.Reprs.{ReprData, repr_view};
ghost use Rattle.lalrpop_norm_tree_parts.specs.TypeTexts.{repr_text};
ghost use Rattle.lalrpop_norm_shared_types.specs.Shared.{shared_view};

use lalrpop_norm_repr::grammar::repr::TypeRepr;
use lalrpop_norm_shared_types::shared::SharedType;
use std::alloc::AllocError;

/// A lowered type.
pub(crate) trait LoweredType {
    // The type that it is.
    ghost as_repr: { Self → ReprData };

    /// Appends its text. The only error is a failed allocation.
    fn push_onto(&self, text: &mut String) -> Result<(), AllocError>
        ensures { OnOk result (string_bytes text.new ≡ string_bytes text.old ++ repr_text (as_repr self.now)) };
}

impl LoweredType for TypeRepr {
    ghost as_repr = { repr_view };

    fn push_onto(&self, text: &mut String) -> Result<(), AllocError> {
        write!(text, "{self}")
    }
}

impl LoweredType for SharedType {
    ghost as_repr = { shared_view };

    fn push_onto(&self, text: &mut String) -> Result<(), AllocError> {
        write!(text, "{self}")
    }
}
