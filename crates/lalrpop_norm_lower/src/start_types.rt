//! The start symbols of public rules over a table of types, and the types that it gets of them.
ghost use Rattle.std.specs.Prelude.{◌≡◌, [], ◌∷◌, IfOk, OnOk, map};
ghost use Rattle.lalrpop_norm_tree.specs.Items.{rule_view};
ghost use Rattle.lalrpop_norm_shared_types.specs.Shared.{shared_view};
ghost use Rattle.lalrpop_norm_shared_types.specs.Table.{shared_table};
ghost use Rattle.lalrpop_norm_lower.specs.Lowering.{public_rules_in, rule_type, start_name, start_names};
ghost use Rattle.lalrpop_norm_lower.specs.Starts.{start_rule, start_named, start_taken, start_typed, has_start, typed_row};
ghost use Rattle.lalrpop_norm_lower.specs.State.{rules_in};
ghost use Rattle.lalrpop_norm_lower.specs.StartTypes.{AddsTypes};

use crate::actions::owned_or_unit;
use crate::rules::public_rules;
use crate::starts::{Start, start_name};
use lalrpop_norm_shared_types::shared::SharedType;
use lalrpop_norm_shared_types::table::SharedTypes;
use lalrpop_norm_tree::grammar::parse_tree as pt;
use lalrpop_norm_tree::grammar::parse_tree::{GrammarItem, NoMemory, NonterminalString};
use std::alloc::Global;

/// The start symbols of the public rules among the items.
pub(crate) fn starts_among<'g>(
    alloc: Global,
    prefix: &str,
    types: &SharedTypes,
    items: &'g [GrammarItem],
) -> Result<Vec<Start<'g>>, NoMemory>
    ensures rules { IfOk result (λ ss. map start_rule ss.items ≡ public_rules_in (rules_in items.now)) }
    ensures names { IfOk result (λ ss. map start_named ss.items ≡ start_names prefix.now (public_rules_in (rules_in items.now))) }
    ensures taken { IfOk result (λ ss. map start_taken ss.items
        ≡ map (has_start prefix.now (shared_table types.now)) (public_rules_in (rules_in items.now))) }
{
    let public = public_rules(alloc, items)?;
    starts_of(alloc, prefix, types, &public)
}

/// The start symbols of these rules.
fn starts_of<'g>(
    alloc: Global,
    prefix: &str,
    types: &SharedTypes,
    public: &[&'g pt::NonterminalData],
) -> Result<Vec<Start<'g>>, NoMemory>
    ensures rules { IfOk result (λ ss. map start_rule ss.items ≡ map (λ r. rule_view r.now) public.now) }
    ensures names { IfOk result (λ ss. map start_named ss.items ≡ start_names prefix.now (map (λ r. rule_view r.now) public.now)) }
    ensures taken { IfOk result (λ ss. map start_taken ss.items
        ≡ map (has_start prefix.now (shared_table types.now)) (map (λ r. rule_view r.now) public.now)) }
{
    let mut starts = Vec::with_capacity(alloc, public.len())?;
    for rule in public {
        starts.push(start_of(alloc, prefix, types, *rule)?)?;
    }
    Ok(starts)
}

fn start_of<'g>(
    alloc: Global,
    prefix: &str,
    types: &SharedTypes,
    rule: &'g pt::NonterminalData,
) -> Result<Start<'g>, NoMemory>
    ensures rule { IfOk result (λ s. s.rule.now ≡ rule.now) }
    ensures name { IfOk result (λ s. s.name ≡ start_name prefix.now rule.now.name) }
    ensures taken { IfOk result (λ s. s.taken ≡ has_start prefix.now (shared_table types.now) (rule_view rule.now)) }
{
    let name = start_name(alloc, prefix, &rule.name)?;
    let taken = types.lookup_nonterminal_type(&name).is_some();
    Ok(Start { rule, name, taken })
}

/// The start symbols with their types.
pub(crate) fn typed_starts(
    alloc: Global,
    types: &SharedTypes,
    starts: &[Start],
) -> Result<Vec<(NonterminalString, SharedType)>, NoMemory>
    ensures { IfOk result (λ ts. map typed_row ts.items ≡ map (start_typed (shared_table types.now)) starts.now) }
{
    let mut typed = Vec::with_capacity(alloc, starts.len())?;
    for start in starts {
        let ty = type_of_rule(alloc, types, start.rule)?;
        typed.push((start.name.clone()?, ty))?;
    }
    Ok(typed)
}

/// The rule's type, by the table.
fn type_of_rule(
    alloc: Global,
    types: &SharedTypes,
    rule: &pt::NonterminalData,
) -> Result<SharedType, NoMemory>
    ensures { IfOk result (λ t. shared_view t ≡ rule_type (shared_table types.now) (rule_view rule.now)) }
{
    owned_or_unit(alloc, types.lookup_nonterminal_type(&rule.name))
}

/// Adds the start symbols that have no type yet, each with its rule's type.
pub(crate) fn add_start_types(
    types: &mut SharedTypes,
    starts: Vec<(NonterminalString, SharedType)>,
) -> Result<(), NoMemory>
    ensures { OnOk result (AddsTypes (shared_table types.old) (shared_table types.new) (map typed_row starts.items)) }
{
    for (name, ty) in starts {
        add_missing(types, name, ty)?;
    }
    Ok(())
}

fn add_missing(
    types: &mut SharedTypes,
    name: NonterminalString,
    ty: SharedType,
) -> Result<(), NoMemory>
    ensures { OnOk result (AddsTypes (shared_table types.old) (shared_table types.new) ((name, shared_view ty) ∷ [])) }
{
    let is_new = types.lookup_nonterminal_type(&name).is_none();
    if is_new {
        types.add_type(name, ty)?;
    }
    Ok(())
}
