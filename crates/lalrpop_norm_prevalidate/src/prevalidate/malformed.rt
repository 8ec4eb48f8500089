//! The spans of the `cfg` of a grammar that are of no known form.
ghost use Rattle.std.specs.Prelude.{◌≡◌, ◌++◌, IfOk, OnOk, map, flat_map, option_map};
ghost use Rattle.lalrpop_norm_tree_parts.specs.Attributes.{attribute_view, attributes_view};
ghost use Rattle.lalrpop_norm_tree.specs.Items.{alternative_view, conversion_view, enum_token_view, grammar_view, item_view, rule_view};
ghost use Rattle.lalrpop_norm_prevalidate.specs.MalformedCfgs.{malformed_at, malformed_among, malformed_on_alternative};
ghost use Rattle.lalrpop_norm_prevalidate.specs.MalformedCfgs.{malformed_on_conversion, malformed_in_rule, malformed_in_enum};
ghost use Rattle.lalrpop_norm_prevalidate.specs.MalformedCfgs.{malformed_in_item, malformed_cfgs};

use lalrpop_norm_faults::NormFailure;
use lalrpop_norm_prevalidate_attributes::cfg::check_cfg;
use lalrpop_norm_tree::grammar::parse_tree::{
    Alternative, Attribute, Conversion, EnumToken, Grammar, GrammarItem, NoMemory, NonterminalData,
    Span,
};
use std::alloc::Global;

/// Adds the span of F11 at an attribute, if it is a `cfg` that fails.
fn add_attribute(
    alloc: Global,
    attribute: &Attribute,
    spans: &mut Vec<Span>,
) -> Result<(), NoMemory>
    ensures { OnOk result (spans.new.items ≡ spans.old.items ++ malformed_at (attribute_view attribute.now)) }
{
    match check_cfg(alloc, attribute) {
        Ok(()) => Ok(()),
        Err(NormFailure::Refused(error)) => {
            spans.push(error.span)?;
            Ok(())
        }
        Err(NormFailure::Memory) => Err(NoMemory),
    }
}

fn add_attributes(
    alloc: Global,
    attributes: &[Attribute],
    spans: &mut Vec<Span>,
) -> Result<(), NoMemory>
    ensures { OnOk result (spans.new.items ≡ spans.old.items ++ malformed_among (attributes_view attributes.now)) }
{
    for attribute in attributes {
        add_attribute(alloc, attribute, spans)?;
    }
    Ok(())
}

fn add_alternatives(
    alloc: Global,
    alternatives: &[Alternative],
    spans: &mut Vec<Span>,
) -> Result<(), NoMemory>
    ensures { OnOk result (spans.new.items ≡ spans.old.items ++ flat_map malformed_on_alternative (map alternative_view alternatives.now)) }
{
    for alternative in alternatives {
        add_attributes(alloc, &alternative.attributes, spans)?;
    }
    Ok(())
}

#[tactic(auto, using(std::proofs::Common::append_assoc))]
fn add_rule(alloc: Global, rule: &NonterminalData, spans: &mut Vec<Span>) -> Result<(), NoMemory>
    ensures { OnOk result (spans.new.items ≡ spans.old.items ++ malformed_in_rule (rule_view rule.now)) }
{
    add_attributes(alloc, &rule.attributes, spans)?;
    add_alternatives(alloc, &rule.alternatives, spans)
}

fn add_conversions(
    alloc: Global,
    conversions: &[Conversion],
    spans: &mut Vec<Span>,
) -> Result<(), NoMemory>
    ensures { OnOk result (spans.new.items ≡ spans.old.items ++ flat_map malformed_on_conversion (map conversion_view conversions.now)) }
{
    for conversion in conversions {
        add_attributes(alloc, &conversion.attributes, spans)?;
    }
    Ok(())
}

fn add_enum(
    alloc: Global,
    tokens: &Option<EnumToken>,
    spans: &mut Vec<Span>,
) -> Result<(), NoMemory>
    ensures { OnOk result (spans.new.items ≡ spans.old.items ++ malformed_in_enum (option_map enum_token_view tokens.now)) }
{
    match tokens {
        Some(tokens) => add_conversions(alloc, &tokens.conversions, spans),
        None => Ok(()),
    }
}

fn add_item(alloc: Global, item: &GrammarItem, spans: &mut Vec<Span>) -> Result<(), NoMemory>
    ensures { OnOk result (spans.new.items ≡ spans.old.items ++ malformed_in_item (item_view item.now)) }
{
    match item {
        GrammarItem::ExternToken(token) => add_enum(alloc, &token.enum_token, spans),
        GrammarItem::Nonterminal(rule) => add_rule(alloc, rule, spans),
        GrammarItem::MatchToken(_) | GrammarItem::InternToken(_) | GrammarItem::Use(_) => Ok(()),
    }
}

fn add_items(alloc: Global, items: &[GrammarItem], spans: &mut Vec<Span>) -> Result<(), NoMemory>
    ensures { OnOk result (spans.new.items ≡ spans.old.items ++ flat_map malformed_in_item (map item_view items.now)) }
{
    for item in items {
        add_item(alloc, item, spans)?;
    }
    Ok(())
}

/// The spans of the `cfg` of a grammar that are of no known form: the span of F11 (`MalformedCfg`) at each `cfg` on a rule, an
/// alternative or a conversion that fails, in visiting order. It serves those who migrate old grammars: `validate` reports only
/// the first of all faults. The only error is a failed allocation.
pub fn malformed_cfgs(alloc: Global, grammar: &Grammar) -> Result<Vec<Span>, NoMemory>
    ensures { IfOk result (λ v. v.items ≡ malformed_cfgs (grammar_view grammar.now)) }
{
    let mut spans = Vec::new(alloc);
    add_items(alloc, &grammar.items, &mut spans)?;
    Ok(spans)
}
