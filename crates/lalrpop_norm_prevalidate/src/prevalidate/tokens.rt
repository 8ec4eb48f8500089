//! Match blocks and extern blocks.
ghost use Rattle.std.specs.Prelude.{◌≡◌, not, [], map, flat_map, option_map, is_some, if◌then◌else◌};
ghost use Rattle.lalrpop_norm_tree.specs.Items.{associated_type_view, conversion_view, enum_token_view, extern_token_view};
ghost use Rattle.lalrpop_norm_tree.specs.Items.{match_contents_view, match_token_view};
ghost use Rattle.lalrpop_norm_faults.specs.Faults.{Refuses, fault_if};
ghost use Rattle.lalrpop_norm_model.specs.Features.{is_one_of};
ghost use Rattle.lalrpop_norm_prevalidate.specs.GrammarFaults.{mapping_faults, match_beside_extern_faults, match_faults};
ghost use Rattle.lalrpop_norm_prevalidate.specs.GrammarFaults.{is_known_type, associated_faults, types_faults, conversion_faults};
ghost use Rattle.lalrpop_norm_prevalidate.specs.GrammarFaults.{enum_faults, extern_faults};

use super::Blocks;
use super::rules::check_type;
use super::symbols::validate_terminal;
use super::types::pattern_holds;
use lalrpop_norm_faults::{FaultKind, NormResult, refusal};
use lalrpop_norm_prevalidate_attributes::cfg::check_cfgs;
use lalrpop_norm_tree::grammar::parse_tree::{
    AssociatedType, Atom, Conversion, EnumToken, ExternToken, MatchContents, MatchItem,
    MatchMapping, MatchToken, Span,
};
use std::alloc::Global;

fn check_beside(alloc: Global, other: Option<Span>) -> NormResult<()>
    ensures { Refuses result (match_beside_extern_faults other) }
{
    match other {
        Some(span) => Err(refusal(
            FaultKind::MatchWithExtern,
            span,
            format!(in alloc;
                "a match block makes a tokenizer, and an extern block with an enum brings one: leave out the one or the other"
            ),
        )),
        None => Ok(()),
    }
}

fn check_first_match(alloc: Global, seen: bool, span: Span) -> NormResult<()>
    ensures { Refuses result (fault_if seen (FaultKind.SecondMatch, span)) }
{
    if seen {
        return Err(refusal(
            FaultKind::SecondMatch,
            span,
            format!(in alloc; "there is a match block already: move these entries into it"),
        ));
    }
    Ok(())
}

fn check_first_extern(alloc: Global, seen: bool, span: Span) -> NormResult<()>
    ensures { Refuses result (fault_if seen (FaultKind.SecondExtern, span)) }
{
    if seen {
        return Err(refusal(
            FaultKind::SecondExtern,
            span,
            format!(in alloc; "there is an extern block already: move this into it"),
        ));
    }
    Ok(())
}

fn validate_mapping(alloc: Global, item: &MatchItem) -> NormResult<()>
    ensures { Refuses result (mapping_faults item.now) }
{
    match item {
        MatchItem::Mapped(_, MatchMapping::Terminal(terminal), span) => {
            validate_terminal(alloc, *span, terminal)
        }
        MatchItem::Mapped(_, MatchMapping::Skip, _)
        | MatchItem::Unmapped(_, _)
        | MatchItem::CatchAll(_) => Ok(()),
    }
}

fn validate_mappings(alloc: Global, items: &[MatchItem]) -> NormResult<()>
    ensures { Refuses result (flat_map mapping_faults items.now) }
{
    for item in items {
        validate_mapping(alloc, item)?;
    }
    Ok(())
}

fn validate_group(alloc: Global, group: &MatchContents) -> NormResult<()>
    ensures { Refuses result (flat_map mapping_faults (match_contents_view group.now)) }
{
    validate_mappings(alloc, &group.items)
}

fn validate_groups(alloc: Global, groups: &[MatchContents]) -> NormResult<()>
    ensures { Refuses result (flat_map (flat_map mapping_faults) (map match_contents_view groups.now)) }
{
    for group in groups {
        validate_group(alloc, group)?;
    }
    Ok(())
}

#[tactic(auto, unfolding(crate::specs::GrammarFaults::match_faults))]
pub(super) fn validate_match(
    alloc: Global,
    blocks: Blocks,
    seen: bool,
    token: &MatchToken,
) -> NormResult<()>
    ensures { Refuses result (match_faults blocks seen (match_token_view token.now)) }
{
    check_first_match(alloc, seen, token.span)?;
    check_beside(alloc, blocks.first_enum)?;
    validate_groups(alloc, &token.contents)?;
    Ok(())
}

fn is_known_type(name: &str) -> bool
    ensures { result ≡ is_known_type name.now }
{
    name == "Location" || name == "Error"
}

fn is_among(name: &Atom, before: &[AssociatedType]) -> bool
    ensures { result ≡ is_one_of name.now (map (λ t. t.type_name) before.now) }
{
    for ty in before {
        if &ty.type_name == name {
            return true;
        }
    }
    false
}

fn check_known(alloc: Global, ty: &AssociatedType) -> NormResult<()>
    ensures { Refuses result (fault_if (not (is_known_type ty.now.type_name)) (FaultKind.UnknownAssociatedType, ty.now.type_span)) }
{
    let name = &ty.type_name;
    if !is_known_type(name.as_str()) {
        return Err(refusal(
            FaultKind::UnknownAssociatedType,
            ty.type_span,
            format!(in alloc;
                "an extern block has no type `{name}`: it may name `Location` and `Error`"
            ),
        ));
    }
    Ok(())
}

fn check_new(alloc: Global, before: &[AssociatedType], ty: &AssociatedType) -> NormResult<()>
    ensures { Refuses result (fault_if (is_one_of ty.now.type_name (map (λ t. t.type_name) before.now))
        (FaultKind.RepeatedAssociatedType, ty.now.type_span)) }
{
    let name = &ty.type_name;
    if is_among(name, before) {
        return Err(refusal(
            FaultKind::RepeatedAssociatedType,
            ty.type_span,
            format!(in alloc; "the block has a type `{name}` already: leave one of them out"),
        ));
    }
    Ok(())
}

#[tactic(auto, unfolding(crate::specs::GrammarFaults::associated_faults))]
fn validate_associated(
    alloc: Global,
    before: &[AssociatedType],
    ty: &AssociatedType,
) -> NormResult<()>
    ensures { Refuses result (associated_faults (map (λ t. t.type_name) before.now) (associated_type_view ty.now)) }
{
    check_known(alloc, ty)?;
    check_new(alloc, before, ty)?;
    check_type(alloc, ty.type_ref.holds_symbol(), ty.type_span)?;
    Ok(())
}

#[tactic(auto, using(crate::proofs::PlaceLemmas::types_placed))]
fn validate_types(alloc: Global, types: &[AssociatedType]) -> NormResult<()>
    ensures { Refuses result (types_faults (map associated_type_view types.now)) }
{
    for (i, ty) in types.iter().enumerate() {
        validate_associated(alloc, &types[..i], ty)?;
    }
    Ok(())
}

#[tactic(auto, unfolding(crate::specs::GrammarFaults::conversion_faults))]
fn validate_conversion(alloc: Global, conversion: &Conversion) -> NormResult<()>
    ensures { Refuses result (conversion_faults (conversion_view conversion.now)) }
{
    validate_terminal(alloc, conversion.span, &conversion.from)?;
    check_type(alloc, pattern_holds(&conversion.to), conversion.span)?;
    check_cfgs(alloc, &conversion.attributes)?;
    Ok(())
}

fn validate_conversions(alloc: Global, conversions: &[Conversion]) -> NormResult<()>
    ensures { Refuses result (flat_map conversion_faults (map conversion_view conversions.now)) }
{
    for conversion in conversions {
        validate_conversion(alloc, conversion)?;
    }
    Ok(())
}

fn validate_enum(alloc: Global, tokens: &Option<EnumToken>) -> NormResult<()>
    ensures { Refuses result (enum_faults (option_map enum_token_view tokens.now)) }
{
    match tokens {
        Some(tokens) => {
            check_type(alloc, tokens.type_name.holds_symbol(), tokens.type_span)?;
            validate_conversions(alloc, &tokens.conversions)?;
            Ok(())
        }
        None => Ok(()),
    }
}

fn check_match(alloc: Global, blocks: Blocks, has_enum: bool) -> NormResult<()>
    ensures { Refuses result (if has_enum then match_beside_extern_faults blocks.first_match else []) }
{
    if has_enum {
        check_beside(alloc, blocks.first_match)?;
    }
    Ok(())
}

#[tactic(auto, unfolding(crate::specs::GrammarFaults::extern_faults))]
pub(super) fn validate_extern(
    alloc: Global,
    blocks: Blocks,
    seen: bool,
    token: &ExternToken,
) -> NormResult<()>
    ensures { Refuses result (extern_faults blocks seen (extern_token_view token.now)) }
{
    check_first_extern(alloc, seen, token.span)?;
    check_match(alloc, blocks, token.enum_token.is_some())?;
    validate_types(alloc, &token.associated_types)?;
    validate_enum(alloc, &token.enum_token)?;
    Ok(())
}
