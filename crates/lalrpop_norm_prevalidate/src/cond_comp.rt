//! Conditional compilation: what the features of a session leave of a grammar.
ghost use Rattle.std.specs.Prelude.{◌≡◌, [], IfOk, IsOkAnd, map, filter, option_map};
ghost use Rattle.lalrpop_norm_faults.specs.Faults.{RefusesOr};
ghost use Rattle.lalrpop_norm_tree.specs.Items.{conversion_view, enum_token_view, item_view, grammar_view};
ghost use Rattle.lalrpop_norm_model.specs.Enabled.{enabled_enum, enabled_grammar};
ghost use Rattle.lalrpop_norm_common.specs.Sessions.{features_view};
ghost use Rattle.lalrpop_norm_origins.specs.Origins.{origin_lists};
ghost use Rattle.lalrpop_norm_origins.specs.Shapes.{IsShaped};
ghost use Rattle.lalrpop_norm_origins.specs.EnabledOrigins.{enabled_origins};
ghost use Rattle.lalrpop_norm_prevalidate.specs.EnabledItems.{active_conversions, stays, trimmed};

use lalrpop_norm_common::Session;
pub use lalrpop_norm_common::cfg_active;
use lalrpop_norm_faults::NormResult;
pub use lalrpop_norm_origins::Origin;
use lalrpop_norm_origins::enabled_origins;
use lalrpop_norm_prevalidate_attributes::enabled::retain_alternatives;
use lalrpop_norm_tree::grammar::parse_tree::{Conversion, EnumToken, Grammar, GrammarItem};
use std::alloc::Global;

/// The grammar without the rules, alternatives and conversions that the features of the session turn off, all else as it
/// was. It is always Ok: it never runs out of memory.
pub fn remove_disabled_decls<L>(session: &Session<L>, mut grammar: Grammar) -> NormResult<Grammar>
    ensures { IsOkAnd result (λ g. grammar_view g ≡ enabled_grammar (features_view session.now.features) (grammar_view grammar)) }
{
    retain_items(session, &mut grammar.items);
    trim_items(session, &mut grammar.items);
    Ok(grammar)
}

/// The grammar of `remove_disabled_decls`, and the origins of the alternatives that are left: one list for each rule in item
/// order, one origin for each alternative, which is its written index. The only error is a failed allocation.
pub fn remove_disabled_traced<L>(
    alloc: Global,
    session: &Session<L>,
    grammar: Grammar,
) -> NormResult<(Grammar, Vec<Vec<Origin>>)>
    ensures grammar { RefusesOr result []
        (λ r. grammar_view r.0 ≡ enabled_grammar (features_view session.now.features) (grammar_view grammar)) }
    ensures origins { IfOk result
        (λ r. origin_lists r.1.items ≡ enabled_origins (features_view session.now.features) (grammar_view grammar)) }
    ensures shaped { IfOk result (λ r. IsShaped (grammar_view r.0).items (origin_lists r.1.items)) }
{
    let origins = enabled_origins(alloc, session, &grammar)?;
    let enabled = remove_disabled_decls(session, grammar)?;
    Ok((enabled, origins))
}

fn retain_items<L>(session: &Session<L>, items: &mut Vec<GrammarItem>)
    ensures { map item_view items.new.items ≡ filter (stays (features_view session.now.features)) (map item_view items.old.items) }
{
    items.retain(|item| stays(session, item));
}

fn stays<L>(session: &Session<L>, item: &GrammarItem) -> bool
    ensures { result ≡ stays (features_view session.now.features) (item_view item.now) }
{
    match item {
        GrammarItem::Nonterminal(rule) => cfg_active(session, &rule.attributes),
        GrammarItem::MatchToken(_)
        | GrammarItem::ExternToken(_)
        | GrammarItem::InternToken(_)
        | GrammarItem::Use(_) => true,
    }
}

fn trim_items<L>(session: &Session<L>, items: &mut [GrammarItem])
    ensures { map item_view items.new ≡ map (trimmed (features_view session.now.features)) (map item_view items.old) }
{
    for item in items.iter_mut() {
        trim(session, item);
    }
}

fn trim<L>(session: &Session<L>, item: &mut GrammarItem)
    ensures { item_view item.new ≡ trimmed (features_view session.now.features) (item_view item.old) }
{
    match item {
        GrammarItem::Nonterminal(rule) => retain_alternatives(session, &mut rule.alternatives),
        GrammarItem::ExternToken(token) => trim_enum(session, &mut token.enum_token),
        GrammarItem::MatchToken(_) | GrammarItem::InternToken(_) | GrammarItem::Use(_) => {}
    }
}

fn trim_enum<L>(session: &Session<L>, tokens: &mut Option<EnumToken>)
    ensures { option_map enum_token_view tokens.new
        ≡ option_map (enabled_enum (features_view session.now.features)) (option_map enum_token_view tokens.old) }
{
    match tokens {
        Some(tokens) => retain_conversions(session, &mut tokens.conversions),
        None => {}
    }
}

fn retain_conversions<L>(session: &Session<L>, conversions: &mut Vec<Conversion>)
    ensures { map conversion_view conversions.new.items
        ≡ active_conversions (features_view session.now.features) (map conversion_view conversions.old.items) }
{
    conversions.retain(|conversion| cfg_active(session, &conversion.attributes));
}
