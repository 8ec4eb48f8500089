//! Whether a grammar is expanded: what the late passes ask of it.
#![tactic(auto)]

ghost use Rattle.std.specs.Prelude.{◌≡◌, ◌↔◌, true};
ghost use Rattle.lalrpop_norm_tree_parts.specs.Attributes.{attributes_view};
ghost use Rattle.lalrpop_norm_tree.specs.Items.{grammar_view};
ghost use Rattle.lalrpop_norm_model.specs.Expanded.{IsExpanded, all_known};
ghost use Rattle.lalrpop_norm_is_expanded.specs.Whole.{are_parts_plain};

mod plain;
mod tokens;
mod types;

use lalrpop_norm_tree::grammar::parse_tree::{Attribute, Grammar, is_known_attribute};
use plain::{are_names_distinct, are_rules_plain};
use tokens::{are_sources_apart, is_error_unnamed};
use types::is_free_of_symbols;

/// Whether there is no macro and no condition; each symbol, within selected, named and tuple symbols, is a terminal other than
/// the error terminal, a nonterminal or `!`; the names of rules are distinct, and each one used has a rule; no conversion or
/// mapping names the error terminal; an extern enum occurs with neither a match block nor a tokenizer, and of each of the three
/// there is at most one; only declared types hold symbols, and these are such symbols too; and the attributes of the grammar are
/// known.
pub fn is_expanded(grammar: &Grammar) -> bool
    ensures { result ≡ true ↔ IsExpanded (grammar_view grammar.now) }
{
    are_sources_apart(&grammar.items) && are_parts_plain(grammar)
}

fn are_parts_plain(grammar: &Grammar) -> bool
    ensures { result ≡ are_parts_plain (grammar_view grammar.now) }
{
    are_rules_plain(&grammar.items)
        && are_names_distinct(&grammar.items)
        && is_error_unnamed(&grammar.items)
        && is_free_of_symbols(grammar)
        && are_known(&grammar.attributes)
}

fn are_known(attributes: &[Attribute]) -> bool
    ensures { result ≡ all_known (attributes_view attributes.now) }
{
    for attribute in attributes {
        if !is_known_attribute(attribute) {
            return false;
        }
    }
    true
}
