//! Levels and associativities as a rule's alternatives state them.
ghost use Rattle.std.specs.Prelude.{◌≡◌, ◌^◌, None, IfOk, is_some, length, option_map, map, flat_map, codes, if◌then◌else◌};
ghost use Rattle.lalrpop_norm_tree.specs.Accessors.{or_else};
ghost use Rattle.lalrpop_norm_tree_parts.specs.Attributes.{attribute_view, attributes_view};
ghost use Rattle.lalrpop_norm_tree.specs.Items.{alternative_view, rule_view};
ghost use Rattle.lalrpop_norm_faults.specs.Faults.{Refuses, RefusesOr};
ghost use Rattle.lalrpop_norm_model.specs.Levels.{first_named, value_under, number_of, side_named, stated_level, stated_side};
ghost use Rattle.lalrpop_norm_precedence_steps.specs.Sides.{side_of};
ghost use Rattle.lalrpop_norm_precedence_steps.specs.LevelFaults.{level_argument_faults, side_argument_faults, level_attribute_faults};
ghost use Rattle.lalrpop_norm_precedence_steps.specs.LevelFaults.{lesser_level, least, is_narrow, is_barred, barred_faults};
ghost use Rattle.lalrpop_norm_precedence_steps.specs.LevelFaults.{lowest_faults, level_faults, levels_and_sides, has_several_levels};
ghost use Rattle.lalrpop_norm_precedence_steps.specs.StatedLevels.{alternative_level_view};
ghost use Rattle.lalrpop_norm_precedence.specs.Handed.{handed_levels, placed_faults};

use super::{ASSOC_ATTR, AlternativeLevel, Assoc, LVL_ARG, PREC_ATTR, SIDE_ARG};
use lalrpop_norm_faults::{FaultKind, NormResult, refusal};
use lalrpop_norm_precedence_steps::attributes::first_named;
use lalrpop_norm_precedence_steps::levels::{check_first, differ, has_levels};
use lalrpop_norm_tree::grammar::parse_tree::{Alternative, Attribute, NonterminalData};
use std::alloc::{AllocError, Global};

/// The level and the associativity of each alternative of a rule, in order. All alternatives count; those that are not enabled
/// are to be taken out before.
///
/// The first error is reported, in this order: a rule with a `precedence` or an `assoc` whose first alternative has no
/// `precedence` (F12a, at that alternative); for each alternative a level that is not `level = ".."` (F12b) or no number of 32
/// bits (F12c), both at the name of the `precedence`, and an associativity that is not `side = ".."` (F12d) or none of the four
/// (F12e); then an associativity on the lowest level (F12f): any if an alternative states that level, any but `all` if it
/// inherits it; these three at the name of the `assoc`. The other error is `Memory`.
pub fn read_levels(alloc: Global, rule: &NonterminalData) -> NormResult<Vec<AlternativeLevel>>
    ensures { RefusesOr result (level_faults (rule_view rule.now))
        (λ levels. map alternative_level_view levels.items ≡ levels_and_sides (rule_view rule.now)) }
{
    check_first(alloc, &rule.alternatives)?;
    check_attributes(alloc, &rule.alternatives)?;
    let levels = hand_on(alloc, &rule.alternatives)?;
    let lowest = least(&levels).unwrap_or(0);
    check_lowest(alloc, lowest, &levels, &rule.alternatives)?;
    Ok(levels)
}

/// Whether the alternatives of a rule have two levels or more, where 0 counts if none is stated. All alternatives count;
/// those that are not enabled are to be taken out before.
///
/// The only error is a failed allocation.
#[tactic(auto, using(crate::proofs::SeveralLemmas::several_read))]
pub fn has_several_levels(alloc: Global, rule: &NonterminalData) -> Result<bool, AllocError>
    ensures { IfOk result (λ several. several ≡ has_several_levels (rule_view rule.now)) }
{
    if !has_levels(&rule.alternatives) {
        return Ok(false);
    }
    let levels = hand_on(alloc, &rule.alternatives)?;
    Ok(differ(&levels))
}

// ---- what an alternative states

/// The value of the first argument, if that argument is `key = ".."` for this key.
fn value_under<'a>(attribute: &'a Attribute, key: &str) -> Option<&'a str>
    ensures { option_map (λ t. t.now) result ≡ value_under key.now (attribute_view attribute.now) }
{
    let (name, value) = attribute.get_arg_equal()?;
    if name.as_str() == key {
        Some(value)
    } else {
        None
    }
}

/// The number that a level is written as: decimal digits after one `+` at most, up to 4294967295.
fn number_of(text: &str) -> Option<u32>
    ensures { result ≡ number_of (2 ^ 32) text.now }
{
    text.parse::<u32>().ok()
}

fn side_named(text: &str) -> Option<Assoc>
    ensures { option_map side_of result ≡ side_named text.now }
{
    text.parse::<Assoc>().ok()
}

fn stated_level(attributes: &[Attribute]) -> Option<u32>
    ensures { result ≡ stated_level (attributes_view attributes.now) }
{
    let attribute = first_named(attributes, PREC_ATTR)?;
    number_of(value_under(attribute, LVL_ARG)?)
}

fn stated_side(attributes: &[Attribute]) -> Option<Assoc>
    ensures { option_map side_of result ≡ stated_side (attributes_view attributes.now) }
{
    let attribute = first_named(attributes, ASSOC_ATTR)?;
    side_named(value_under(attribute, SIDE_ARG)?)
}

// ---- attributes

fn check_level(alloc: Global, attributes: &[Attribute]) -> NormResult<()>
    ensures { Refuses result (level_argument_faults (first_named (codes "precedence") (attributes_view attributes.now))) }
{
    let Some(attribute) = first_named(attributes, PREC_ATTR) else {
        return Ok(());
    };
    let Some(text) = value_under(attribute, LVL_ARG) else {
        return Err(refusal(
            FaultKind::LevelArgument,
            attribute.id_span,
            format!(in alloc; "`precedence` takes `level = \"..\"`"),
        ));
    };
    if number_of(text).is_none() {
        return Err(refusal(
            FaultKind::LevelNumber,
            attribute.id_span,
            format!(in alloc; "the level `{text}` is no number from 0 to 4294967295"),
        ));
    }
    Ok(())
}

fn check_side(alloc: Global, attributes: &[Attribute]) -> NormResult<()>
    ensures { Refuses result (side_argument_faults (first_named (codes "assoc") (attributes_view attributes.now))) }
{
    let Some(attribute) = first_named(attributes, ASSOC_ATTR) else {
        return Ok(());
    };
    let Some(text) = value_under(attribute, SIDE_ARG) else {
        return Err(refusal(
            FaultKind::SideArgument,
            attribute.id_span,
            format!(in alloc; "`assoc` takes `side = \"..\"`"),
        ));
    };
    if side_named(text).is_none() {
        return Err(refusal(
            FaultKind::Side,
            attribute.id_span,
            format!(in alloc; "the side `{text}` is none of `left`, `right`, `none` and `all`"),
        ));
    }
    Ok(())
}

#[tactic(auto, unfolding(lalrpop_norm_precedence_steps::specs::LevelFaults::level_attribute_faults), using(lalrpop_norm_faults::proofs::FaultLemmas::first_of_more))]
fn check_alternative(alloc: Global, alternative: &Alternative) -> NormResult<()>
    ensures { Refuses result (level_attribute_faults (alternative_view alternative.now)) }
{
    check_level(alloc, &alternative.attributes)?;
    check_side(alloc, &alternative.attributes)?;
    Ok(())
}

fn check_attributes(alloc: Global, alternatives: &[Alternative]) -> NormResult<()>
    ensures { Refuses result (flat_map level_attribute_faults (map alternative_view alternatives.now)) }
{
    for alternative in alternatives {
        check_alternative(alloc, alternative)?;
    }
    Ok(())
}

// ---- levels and associativities of indices

fn level_after(before: Option<u32>, stated: Option<u32>) -> Option<u32>
    ensures { result ≡ or_else stated before }
{
    stated.or(before)
}

/// A level that is stated starts anew, with only the associativity beside it.
fn side_after(before: Option<Assoc>, level: Option<u32>, stated: Option<Assoc>) -> Option<Assoc>
    ensures { result ≡ (if is_some level then stated else or_else stated before) }
{
    match level {
        Some(_) => stated,
        None => stated.or(before),
    }
}

pub(super) fn hand_on(
    alloc: Global,
    alternatives: &[Alternative],
) -> Result<Vec<AlternativeLevel>, AllocError>
    ensures { IfOk result (λ levels. map alternative_level_view levels.items
        ≡ handed_levels None None (map alternative_view alternatives.now)) }
{
    let mut levels = Vec::with_capacity(alloc, alternatives.len())?;
    let mut level = None;
    let mut side = None;
    for alternative in alternatives {
        let stated = stated_level(&alternative.attributes);
        side = side_after(side, stated, stated_side(&alternative.attributes));
        level = level_after(level, stated);
        levels.push(AlternativeLevel {
            level: level.unwrap_or(0),
            side: side.unwrap_or(Assoc::FullyAssoc),
        })?;
    }
    Ok(levels)
}

// ---- the lowest level

fn lesser(level: u32, other: Option<u32>) -> u32
    ensures { result ≡ lesser_level level other }
{
    match other {
        Some(other) => level.min(other),
        None => level,
    }
}

fn least(levels: &[AlternativeLevel]) -> Option<u32>
    ensures { result ≡ least (map (λ l. (alternative_level_view l).0) levels.now) }
{
    let mut least = None;
    for i in (0..levels.len()).rev() {
        least = Some(lesser(levels[i].level, least));
    }
    least
}

fn is_narrow(side: Option<Assoc>) -> bool
    ensures { result ≡ is_narrow (option_map side_of side) }
{
    match side {
        Some(Assoc::Left | Assoc::Right | Assoc::NonAssoc) => true,
        Some(Assoc::FullyAssoc) | None => false,
    }
}

fn is_barred(alternative: &Alternative) -> bool
    ensures { result ≡ is_barred (alternative_view alternative.now) }
{
    stated_level(&alternative.attributes).is_some()
        || is_narrow(stated_side(&alternative.attributes))
}

#[tactic(auto, unfolding(lalrpop_norm_precedence_steps::specs::LevelFaults::lowest_faults))]
fn check_place(alloc: Global, lowest: u32, level: u32, alternative: &Alternative) -> NormResult<()>
    ensures { Refuses result (lowest_faults lowest level (alternative_view alternative.now)) }
{
    if level == lowest {
        check_barred(alloc, alternative)?;
    }
    Ok(())
}

fn check_barred(alloc: Global, alternative: &Alternative) -> NormResult<()>
    ensures { Refuses result (barred_faults (alternative_view alternative.now)
        (first_named (codes "assoc") (attributes_view alternative.now.attributes.items))) }
{
    match first_named(&alternative.attributes, ASSOC_ATTR) {
        Some(attribute) => {
            if is_barred(alternative) {
                return Err(refusal(
                    FaultKind::SideOnLowest,
                    attribute.id_span,
                    format!(in alloc;
                        "the lowest level of a rule takes no side: leave out `assoc`, or add a lower level"
                    ),
                ));
            }
            Ok(())
        }
        None => Ok(()),
    }
}

/// Looks at the alternatives on the lowest level, where each has the level at its index.
fn check_lowest(
    alloc: Global,
    lowest: u32,
    levels: &[AlternativeLevel],
    alternatives: &[Alternative],
) -> NormResult<()>
    requires { length levels.now ≡ length alternatives.now }
    ensures { Refuses result (placed_faults lowest (map (λ l. (alternative_level_view l).0) levels.now)
        (map alternative_view alternatives.now)) }
{
    for (i, alternative) in alternatives.iter().enumerate() {
        check_place(alloc, lowest, levels[i].level, alternative)?;
    }
    Ok(())
}
