//! Symbols whose JSON form is one word; and the readers of symbols and groups of them, as those of other parts ask for them.
ghost use Rattle.serde_json.specs.Data.{string};
ghost use Rattle.json_records.specs.Variants.{Made};
ghost use Rattle.lalrpop_norm_json.specs.Shapes as shape;
ghost use Rattle.lalrpop_norm_json.specs.Shapes.{is};
ghost use Rattle.lalrpop_norm_tree.specs.Symbols.{kind_view};
ghost use Rattle.lalrpop_norm_json.specs.SymbolForms.{kind_form};

use super::Tree;
use super::symbols::{group, kind};
use json::{Reader, Token};
use json_records::{ReadError, Reads};
use lalrpop_norm_tree::grammar::parse_tree::{ExprSymbol, SymbolKind};
use std::alloc::Global;

/// A symbol without its span, if its JSON form is one word.
pub(crate) fn bare_kind(name: &str) -> Option<SymbolKind>
    ensures { Made (λ k. kind_form (kind_view k)) (is shape.kind) result (string name.now) }
{
    match name {
        "Lookahead" => Some(SymbolKind::Lookahead),
        "Lookbehind" => Some(SymbolKind::Lookbehind),
        "Error" => Some(SymbolKind::Error),
        _ => None,
    }
}

impl Reads<SymbolKind> for Tree {
    ghost use Rattle.lalrpop_norm_tree.specs.Symbols.{kind_view};
    ghost use Rattle.lalrpop_norm_json.specs.SymbolForms.{kind_form};
    ghost use Rattle.lalrpop_norm_json.specs.Shapes as shape;
    ghost use Rattle.lalrpop_norm_json.specs.Shapes.{is};

    ghost form = { λ k. kind_form (kind_view k) };

    ghost can = { is shape.kind };

    fn read<'a>(
        alloc: Global,
        first: Token<'a>,
        reader: &mut Reader<'a>,
        depth: usize,
    ) -> Result<Option<SymbolKind>, ReadError> {
        kind(alloc, first, reader, depth)
    }
}

impl Reads<ExprSymbol> for Tree {
    ghost use Rattle.lalrpop_norm_tree.specs.Symbols.{expr_view};
    ghost use Rattle.lalrpop_norm_json.specs.SymbolForms.{group_form};
    ghost use Rattle.lalrpop_norm_json.specs.Shapes as shape;
    ghost use Rattle.lalrpop_norm_json.specs.Shapes.{is};

    ghost form = { λ e. group_form (expr_view e) };

    ghost can = { is shape.group };

    fn read<'a>(
        alloc: Global,
        first: Token<'a>,
        reader: &mut Reader<'a>,
        depth: usize,
    ) -> Result<Option<ExprSymbol>, ReadError> {
        group(alloc, first, reader, depth)
    }
}
