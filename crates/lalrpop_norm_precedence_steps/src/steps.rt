//! Names of levels, and the step from a level to the one below.
ghost use Rattle.std.specs.Prelude.{◌≡◌, ◌++◌, IfOk, OnOk, map, option_map};
ghost use Rattle.lalrpop_norm_tree.specs.Items.{alternative_view, rule_view};
ghost use Rattle.lalrpop_norm_model.specs.ClosedTexts.{level_name};
ghost use Rattle.lalrpop_norm_model.specs.LevelRules.{step_alternative};
ghost use Rattle.lalrpop_norm_precedence_steps.specs.Steps.{made_steps};

use lalrpop_norm_tree::grammar::parse_tree::{
    Alternative, Atom, ExprSymbol, NoMemory, NonterminalData, NonterminalString, Span, Symbol,
    SymbolKind,
};
use std::alloc::Global;

/// The name of a level of a rule: that of the rule for the highest one; any other ends in the number of the level.
pub fn level_name(
    alloc: Global,
    name: &NonterminalString,
    highest: u32,
    level: u32,
) -> Result<NonterminalString, NoMemory>
    ensures { IfOk result (λ n. n.0 ≡ level_name name.now.0 highest level) }
{
    if level == highest {
        return Ok(name.clone()?);
    }
    let text = format!(in alloc; "{name}{level}")?;
    Ok(NonterminalString(Atom::new(alloc, &text)?))
}

/// Adds the step to the level below, by its name, if there is one, behind the alternatives of a level.
pub fn push_step(
    alloc: Global,
    head: &NonterminalData,
    below: Option<&NonterminalString>,
    alternatives: &mut Vec<Alternative>,
) -> Result<(), NoMemory>
    ensures { OnOk result (map alternative_view alternatives.new.items
        ≡ map alternative_view alternatives.old.items ++ made_steps (rule_view head.now) (option_map (λ n. n.now.0) below.entry)) }
{
    match below {
        None => Ok(()),
        Some(name) => {
            alternatives.push(step_alternative(alloc, head.span, name.clone()?)?)?;
            Ok(())
        }
    }
}

/// The step to another rule: only its name.
fn step_alternative(
    alloc: Global,
    span: Span,
    name: NonterminalString,
) -> Result<Alternative, NoMemory>
    ensures { IfOk result (λ a. alternative_view a ≡ step_alternative span name.0) }
{
    let kind = SymbolKind::Nonterminal(name);
    let mut symbols = Vec::with_capacity(alloc, 1)?;
    symbols.push(Symbol { span, kind })?;
    Ok(Alternative {
        span,
        expr: ExprSymbol { symbols },
        condition: None,
        action: None,
        attributes: Vec::new(alloc),
    })
}
