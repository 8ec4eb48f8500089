//! Levels and associativities of the alternatives of a rule: whether there are any, and the faults that need nothing else.
ghost use Rattle.std.specs.Prelude.{◌≡◌, [], Some, map, nat_eq, not};
ghost use Rattle.std.specs.List.{list_any};
ghost use Rattle.lalrpop_norm_tree.specs.Items.{alternative_view, rule_view};
ghost use Rattle.lalrpop_norm_faults.specs.Faults.{Refuses, fault_if};
ghost use Rattle.lalrpop_norm_model.specs.Enabled.{all_places};
ghost use Rattle.lalrpop_norm_model.specs.Levels.{has_levels};
ghost use Rattle.lalrpop_norm_precedence_steps.specs.Attributes.{first_has_level_attribute};
ghost use Rattle.lalrpop_norm_precedence_steps.specs.LevelFaults.{missing_level_faults, level_faults};
ghost use Rattle.lalrpop_norm_precedence_steps.specs.StatedLevels.{alternative_level_view, differ, without_value};

use crate::assoc::Assoc;
use crate::attributes::{PREC_ATTR, first_named, has_level_attribute};
use lalrpop_norm_faults::{FaultKind, NormResult, refusal};
use lalrpop_norm_tree::grammar::parse_tree::{Alternative, NonterminalData};
use std::alloc::Global;

/// The level and the associativity of an alternative.
#[derive(Clone, Copy, PartialEq, Eq)]
pub struct AlternativeLevel {
    /// The level stated last at or before the alternative: 0 to 4294967295. If none is stated, 0.
    pub level: u32,
    /// The associativity stated last at or before the alternative and not before its level; `all` if there is none.
    pub side: Assoc,
}

/// Whether the first alternative of a rule has a `precedence` or an `assoc`. Whether a rule has levels is another
/// question: there each alternative counts.
///
/// If a rule has no fault of levels, it has levels if and only if its first alternative has one of the two.
#[tactic(auto, using(crate::proofs::FirstLemmas::first_tells))]
pub fn has_prec_attr(non_term: &NonterminalData) -> bool
    ensures first { result ≡ first_has_level_attribute (rule_view non_term.now).alternatives }
    ensures levels { level_faults (rule_view non_term.now) ≡ [] → result ≡ has_levels (all_places (rule_view non_term.now)) }
{
    match non_term.alternatives.first() {
        Some(first) => has_level_attribute(&first.attributes),
        None => false,
    }
}

/// Whether some alternative has a `precedence` or an `assoc`.
pub fn has_levels(alternatives: &[Alternative]) -> bool
    ensures { result ≡ has_levels (map Some (map alternative_view alternatives.now)) }
{
    for alternative in alternatives {
        if has_level_attribute(&alternative.attributes) {
            return true;
        }
    }
    false
}

/// Looks for a first alternative without a `precedence` in a rule with levels.
///
/// Errors: F12a (`MissingLevel`) at that alternative; `Memory`.
pub fn check_first(alloc: Global, alternatives: &[Alternative]) -> NormResult<()>
    ensures { Refuses result (missing_level_faults (map alternative_view alternatives.now)) }
{
    let Some(first) = alternatives.first() else {
        return Ok(());
    };
    if has_levels(alternatives) && first_named(&first.attributes, PREC_ATTR).is_none() {
        return Err(refusal(
            FaultKind::MissingLevel,
            first.span,
            format!(in alloc;
                "the first alternative of a rule with levels has no `precedence`: add one, as `#[precedence(level=\"0\")]`"
            ),
        ));
    }
    Ok(())
}

/// Whether some level is another than the first.
pub fn differ(levels: &[AlternativeLevel]) -> bool
    ensures { result ≡ differ (map (λ l. (alternative_level_view l).0) levels.now) }
{
    match levels.first() {
        Some(first) => any_other(first.level, levels),
        None => false,
    }
}

fn any_other(first: u32, levels: &[AlternativeLevel]) -> bool
    ensures { result ≡ list_any (λ l. not (nat_eq l first)) (map (λ l. (alternative_level_view l).0) levels.now) }
{
    for level in levels {
        if level.level != first {
            return true;
        }
    }
    false
}

/// An error at a macro if it has several levels.
pub fn check_several(alloc: Global, rule: &NonterminalData, several: bool) -> NormResult<()>
    ensures { Refuses result (fault_if several (FaultKind.NotNonterminal, (rule_view rule.now).span)) }
{
    if several {
        let name = &rule.name;
        return Err(refusal(
            FaultKind::NotNonterminal,
            rule.span,
            format!(in alloc;
                "the macro `{name}` has two levels or more, and a level can't name the one below it without arguments: give the levels to a rule"
            ),
        ));
    }
    Ok(())
}

/// The answer without its levels: whether there is an error, and which.
pub fn without_levels(read: NormResult<Vec<AlternativeLevel>>) -> NormResult<()>
    ensures { result ≡ without_value read }
{
    let _levels = read?;
    Ok(())
}
