//! The rules of macro calls: those alternatives of the macro whose conditions hold, in the environment of the arguments.
ghost use Rattle.std.specs.Prelude.{◌≡◌, ◌++◌, [], IfOk, OnOk, map, flat_map};
ghost use Rattle.lalrpop_norm_tree.specs.Symbols.{parts_view};
ghost use Rattle.lalrpop_norm_tree.specs.Items.{AlternativeData, alternative_view, rule_view};
ghost use Rattle.lalrpop_norm_faults.specs.Faults.{Refuses, RefusesOr};
ghost use Rattle.lalrpop_norm_conditions.specs.Conditions.{comparison};
ghost use Rattle.lalrpop_norm_model.specs.Replaced.{all_replaced};
ghost use Rattle.lalrpop_norm_macro_expand_rules.specs.Bound.{argument_in, AreByNumber};
ghost use Rattle.lalrpop_norm_macro_expand_rules.specs.Conditions.{value_faults, instance_faults};
ghost use Rattle.lalrpop_norm_macro_expand_rules.specs.Macros.{HasNumbers};
ghost use Rattle.lalrpop_norm_macro_expand.specs.Kept.{kept_places, kept_place_in, kept_places_in};
ghost use Rattle.lalrpop_norm_macro_expand.specs.Making.{kept_in, instance_shape};

use lalrpop_norm_faults::NormResult;
use lalrpop_norm_macro_expand_rules::alternatives::{copied_alternative, instance_type};
use lalrpop_norm_macro_expand_rules::conditions::is_kept;
use lalrpop_norm_macro_expand_rules::macros::NumberedMacro;
use lalrpop_norm_macro_expand_rules::rules::Head;
use lalrpop_norm_macro_expand_rules::substituted::Bindings;
use lalrpop_norm_tree::grammar::parse_tree::{
    Alternative, NoMemory, NonterminalData, NonterminalString, Symbol,
};
use lalrpop_norm_tree_parts::attribute::copy::copy_attributes;
use std::alloc::Global;

/// Those of a macro's alternatives that the rule of a call has, and their indices among the macro's.
#[derive(Drop)]
struct Kept {
    alternatives: Vec<Alternative>,
    places: Vec<usize>,
}

/// Adds an alternative, if its condition is true or absent.
fn add_alternative(
    alloc: Global,
    bindings: &Bindings,
    head: &Head,
    place: usize,
    alternative: &Alternative,
    kept: &mut Kept,
) -> NormResult<()>
    requires numbers { AreByNumber bindings.now }
    ensures refuses { Refuses result (value_faults (argument_in bindings.now) alternative.now.condition) }
    ensures adds { OnOk result (map alternative_view kept.new.alternatives.items
        ≡ map alternative_view kept.old.alternatives.items ++ kept_in bindings.now head.now.span (alternative_view alternative.now)) }
    ensures places { OnOk result (kept.new.places.items
        ≡ kept.old.places.items ++ kept_place_in bindings.now place (alternative_view alternative.now)) }
{
    let keeps = is_kept(alloc, bindings, &head.name, &alternative.condition)?;
    if keeps {
        let copy = copied_alternative(alloc, head.span, alternative)?;
        kept.alternatives.push(copy)?;
        kept.places.push(place)?;
    }
    Ok(())
}

/// Those of a macro's alternatives whose conditions are true or absent, in order.
fn instance_alternatives(
    alloc: Global,
    bindings: &Bindings,
    head: &Head,
    alternatives: &[Alternative],
) -> NormResult<Kept>
    requires numbers { AreByNumber bindings.now }
    ensures { RefusesOr result
        (flat_map (λ (a : AlternativeData). value_faults (argument_in bindings.now) a.condition) (map alternative_view alternatives.now))
        (λ kept. (map alternative_view kept.alternatives.items
        ≡ flat_map (kept_in bindings.now head.now.span) (map alternative_view alternatives.now))
        × (kept.places.items ≡ kept_places_in bindings.now (map alternative_view alternatives.now))) }
{
    let mut kept = none_kept(alloc, alternatives.len())?;
    for (place, alternative) in alternatives.iter().enumerate() {
        add_alternative(alloc, bindings, head, place, alternative, &mut kept)?;
    }
    Ok(kept)
}

/// No alternatives yet, and room for that many.
fn none_kept(alloc: Global, count: usize) -> Result<Kept, NoMemory>
    ensures { IfOk result (λ kept. (kept.alternatives.items ≡ []) × (kept.places.items ≡ [])) }
{
    let alternatives = Vec::with_capacity(alloc, count)?;
    let places = Vec::with_capacity(alloc, count)?;
    Ok(Kept {
        alternatives,
        places,
    })
}

/// What a call of a macro is desugared to.
#[derive(Drop)]
pub(super) struct Instance {
    /// The rule, in which the macro's names stand for the arguments.
    pub(super) rule: NonterminalData,
    /// The indices, among the macro's alternatives, of those that it has.
    pub(super) kept: Vec<usize>,
}

/// What a call of a macro with these arguments is desugared to.
///
/// Errors: at the first alternative whose condition has no value F33 (`ConditionArgument`) or F34 (`ConditionPattern`); `Memory`.
pub(super) fn instance_rule(
    alloc: Global,
    head: Head,
    called: &NumberedMacro,
    arguments: &[Symbol],
) -> NormResult<Instance>
    requires numbers { HasNumbers called.now }
    requires replaced { all_replaced (parts_view arguments.now) ≡ parts_view arguments.now }
    ensures { RefusesOr result (instance_faults (rule_view called.now.definition) (parts_view arguments.now))
        (λ i. (rule_view i.rule ≡ instance_shape head.name head.span (rule_view called.now.definition) (parts_view arguments.now))
        × (i.kept.items
        ≡ kept_places comparison called.now.definition.args.items (parts_view arguments.now) 0
        (rule_view called.now.definition).alternatives)) }
{
    let definition = &called.definition;
    let names: &[NonterminalString] = &definition.args;
    let bindings = Bindings {
        names,
        numbers: &called.numbers,
        symbols: arguments,
    };
    let kept = instance_alternatives(alloc, &bindings, &head, &definition.alternatives)?;
    let type_decl = instance_type(alloc, &bindings, &definition.type_decl)?;
    let rule = NonterminalData {
        visibility: definition.visibility.clone()?,
        name: NonterminalString(head.name),
        attributes: copy_attributes(&definition.attributes)?,
        span: head.span,
        args: Vec::new(alloc),
        type_decl,
        alternatives: kept.alternatives,
    };
    Ok(Instance {
        rule,
        kept: kept.places,
    })
}
