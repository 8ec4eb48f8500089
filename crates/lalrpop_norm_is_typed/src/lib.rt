//! Whether a grammar is typed by a table: what lowering asks of both beside that the grammar is expanded.
#![tactic(auto)]

ghost use Rattle.std.specs.Prelude.{◌≡◌, ◌↔◌, true};
ghost use Rattle.lalrpop_norm_tree.specs.Items.{grammar_view};
ghost use Rattle.lalrpop_norm_model.specs.Expanded.{IsTyped};
ghost use Rattle.lalrpop_norm_repr.specs.Tables.{type_table};
ghost use Rattle.lalrpop_norm_lower_steps.specs.StartSymbols.{types_by_name};
ghost use Rattle.lalrpop_norm_common.specs.Sessions.{features_view};
ghost use Rattle.lalrpop_norm_is_typed.specs.Whole.{are_terminals_listed, is_typed_by};

mod rules;
mod terminals;
mod used;

use lalrpop_norm_common::Session;
use lalrpop_norm_repr::grammar::repr::Types;
use lalrpop_norm_tree::grammar::parse_tree::Grammar;
use rules::are_rules_typed;
use terminals::{are_terminals_distinct, source_of};
use used::are_items_listed;

/// Whether the table gives the types of the grammar, as `lower` asks: each rule has one there; the terminals of the grammar are
/// distinct; and each terminal in an alternative is one of them. The terminals are those that the active conversions of the first
/// extern enum name, or where there is no enum, those that the entries of the tokenizer name.
pub fn is_typed<L>(session: &Session<L>, grammar: &Grammar, types: &Types) -> bool
    ensures { result ≡ true
        ↔ IsTyped (features_view session.now.features) (grammar_view grammar.now) (types_by_name (type_table types.now)) }
{
    is_typed_by(session, grammar, types)
}

fn is_typed_by<L>(session: &Session<L>, grammar: &Grammar, types: &Types) -> bool
    ensures { result ≡ is_typed_by (features_view session.now.features) (grammar_view grammar.now) (type_table types.now) }
{
    are_rules_typed(types, &grammar.items) && are_terminals_listed(session, grammar)
}

/// Whether no terminal is named twice, and each one that is used is named.
fn are_terminals_listed<L>(session: &Session<L>, grammar: &Grammar) -> bool
    ensures { result ≡ are_terminals_listed (features_view session.now.features) (grammar_view grammar.now) }
{
    let source = source_of(grammar);
    are_terminals_distinct(session, source) && are_items_listed(session, source, &grammar.items)
}
