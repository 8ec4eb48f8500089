//! Checks of a written grammar that need no names. They check all parts, also those that a `cfg` turns off.
ghost use Rattle.std.specs.Prelude.{◌≡◌, ◌||◌, Some, true, false, map, flat_map};
ghost use Rattle.lalrpop_norm_tree.specs.Accessors.{or_else};
ghost use Rattle.lalrpop_norm_tree_parts.specs.Attributes.{attributes_view};
ghost use Rattle.lalrpop_norm_tree_parts.specs.Bounds.{where_clause_view};
ghost use Rattle.lalrpop_norm_tree.specs.Items.{extern_token_view, grammar_view, item_view};
ghost use Rattle.lalrpop_norm_tree.specs.Types.{parameter_view, type_view};
ghost use Rattle.lalrpop_norm_faults.specs.Faults.{Refuses};
ghost use Rattle.lalrpop_norm_prevalidate.specs.GrammarFaults.{is_match, is_extern, item_faults, items_faults, ascent_named, ascent_asked};
ghost use Rattle.lalrpop_norm_prevalidate.specs.GrammarFaults.{lacks_location, surroundings_of, blocks_in, unknown_grammar_faults};
ghost use Rattle.lalrpop_norm_prevalidate.specs.GrammarFaults.{parameter_faults, clause_faults, validate_faults};

mod alternatives;
mod malformed;
mod rules;
mod symbols;
mod tokens;
mod types;

use lalrpop_norm_faults::{FaultKind, NormResult, refusal};
use lalrpop_norm_tree::grammar::parse_tree::{
    Attribute, ExternToken, Grammar, GrammarItem, Parameter, Span, TypeRef, WhereClause,
    is_known_attribute,
};
pub use malformed::malformed_cfgs;
use rules::{check_type, validate_rule};
use std::alloc::Global;
use tokens::{validate_extern, validate_match};
use types::clause_holds;

/// The context of the symbols of a grammar.
#[derive(Clone, Copy)]
pub(crate) struct Surroundings {
    /// `recursive_ascent` or `test_all` is in force.
    has_ascent: bool,
    /// The tokens are an extern enum's, and no type of locations is declared.
    lacks_location: bool,
}

/// The first blocks of a grammar.
#[derive(Clone, Copy)]
pub(crate) struct Blocks {
    /// The span of the first match block.
    first_match: Option<Span>,
    /// The span of the first extern block, if it has an enum.
    first_enum: Option<Span>,
}

/// Checks a written grammar, as users pass it, for the faults F1 to F24.
///
/// Unless an allocation fails, it succeeds if and only if none of them holds, and else reports the first one in visiting order.
pub fn validate(alloc: Global, grammar: &Grammar) -> NormResult<()>
    ensures { Refuses result (validate_faults (grammar_view grammar.now)) }
{
    validate_attributes(alloc, &grammar.attributes)?;
    validate_parameters(alloc, grammar.span, &grammar.parameters)?;
    validate_clauses(alloc, grammar.span, &grammar.where_clauses)?;
    let around = surroundings_of(grammar);
    let blocks = blocks_in(grammar);
    validate_items(alloc, around, blocks, grammar.span, &grammar.items)?;
    Ok(())
}

fn validate_attributes(alloc: Global, attributes: &[Attribute]) -> NormResult<()>
    ensures { Refuses result (unknown_grammar_faults (attributes_view attributes.now)) }
{
    for attribute in attributes {
        if !is_known_attribute(attribute) {
            let name = &attribute.id;
            return Err(refusal(
                FaultKind::GrammarAttribute,
                attribute.id_span,
                format!(in alloc;
                    "the attribute `{name}` is not known on a grammar: `LALR`, `table_driven`, `recursive_ascent` and `test_all` are"
                ),
            ));
        }
    }
    Ok(())
}

fn validate_parameters(alloc: Global, span: Span, parameters: &[Parameter]) -> NormResult<()>
    ensures { Refuses result (flat_map (parameter_faults span) (map parameter_view parameters.now)) }
{
    for parameter in parameters {
        check_type(alloc, parameter.ty.holds_symbol(), span)?;
    }
    Ok(())
}

fn validate_clauses(alloc: Global, span: Span, clauses: &[WhereClause<TypeRef>]) -> NormResult<()>
    ensures { Refuses result (flat_map (clause_faults span) (map (where_clause_view type_view) clauses.now)) }
{
    for clause in clauses {
        check_type(alloc, clause_holds(clause), span)?;
    }
    Ok(())
}

fn ascent_named(name: &str) -> Option<bool>
    ensures { result ≡ ascent_named name.now }
{
    if name == "table_driven" {
        Some(false)
    } else if name == "recursive_ascent" || name == "test_all" {
        Some(true)
    } else {
        None
    }
}

fn last_asked(before: Option<bool>, named: Option<bool>) -> Option<bool>
    ensures { result ≡ or_else named before }
{
    match named {
        Some(asked) => Some(asked),
        None => before,
    }
}

fn ascent_asked(attributes: &[Attribute]) -> Option<bool>
    ensures { result ≡ ascent_asked (attributes_view attributes.now) }
{
    let mut asked = None;
    for attribute in attributes {
        asked = last_asked(asked, ascent_named(attribute.id.as_str()));
    }
    asked
}

fn lacks_location(token: &ExternToken) -> bool
    ensures { result ≡ lacks_location (Some (extern_token_view token.now)) }
{
    token.enum_token.is_some() && token.associated_type("Location").is_none()
}

fn surroundings_of(grammar: &Grammar) -> Surroundings
    ensures { result ≡ surroundings_of (grammar_view grammar.now) }
{
    let has_ascent = match ascent_asked(&grammar.attributes) {
        Some(asked) => asked,
        None => false,
    };
    let lacks_location = match grammar.extern_token() {
        Some(token) => lacks_location(token),
        None => false,
    };
    Surroundings {
        has_ascent,
        lacks_location,
    }
}

fn blocks_in(grammar: &Grammar) -> Blocks
    ensures { result ≡ blocks_in (grammar_view grammar.now) }
{
    let first_match = match grammar.match_token() {
        Some(token) => Some(token.span),
        None => None,
    };
    let first_enum = match grammar.extern_token() {
        Some(token) => {
            if token.enum_token.is_some() {
                Some(token.span)
            } else {
                None
            }
        }
        None => None,
    };
    Blocks {
        first_match,
        first_enum,
    }
}

fn is_match(item: &GrammarItem) -> bool
    ensures { result ≡ is_match (item_view item.now) }
{
    item.as_match_token().is_some()
}

fn is_extern(item: &GrammarItem) -> bool
    ensures { result ≡ is_extern (item_view item.now) }
{
    item.as_extern_token().is_some()
}

#[tactic(auto, unfolding(crate::specs::GrammarFaults::item_faults))]
fn validate_item(
    alloc: Global,
    around: Surroundings,
    blocks: Blocks,
    span: Span,
    seen: (bool, bool),
    item: &GrammarItem,
) -> NormResult<()>
    ensures { Refuses result (item_faults around blocks span seen.0 seen.1 (item_view item.now)) }
{
    match item {
        GrammarItem::MatchToken(token) => validate_match(alloc, blocks, seen.0, token),
        GrammarItem::ExternToken(token) => validate_extern(alloc, blocks, seen.1, token),
        GrammarItem::InternToken(_) => Err(refusal(
            FaultKind::WrittenIntern,
            span,
            format!(in alloc; "the tokenizer of a grammar can't be written: write a match block"),
        )),
        GrammarItem::Nonterminal(rule) => validate_rule(alloc, around, rule),
        GrammarItem::Use(_) => Ok(()),
    }
}

#[tactic(auto, using(crate::proofs::PlaceLemmas::items_placed))]
fn validate_items(
    alloc: Global,
    around: Surroundings,
    blocks: Blocks,
    span: Span,
    items: &[GrammarItem],
) -> NormResult<()>
    ensures { Refuses result (items_faults around blocks span (map item_view items.now)) }
{
    let mut seen_match = false;
    let mut seen_extern = false;
    for item in items {
        validate_item(alloc, around, blocks, span, (seen_match, seen_extern), item)?;
        seen_match = seen_match || is_match(item);
        seen_extern = seen_extern || is_extern(item);
    }
    Ok(())
}
