//! What internal tokens add to a grammar beside themselves: the lifetime `'input`, and the parameter `input`.
ghost use Rattle.std.specs.Prelude.{◌≡◌, false, Some, IfOk, OnOk, codes, bytes_eq, map};
ghost use Rattle.std.specs.List.{list_any};
ghost use Rattle.lalrpop_norm_tree.specs.Items.{grammar_view, intern_token_view};
ghost use Rattle.lalrpop_norm_tree.specs.Types.{parameter_view, type_view, reference, id};
ghost use Rattle.lalrpop_norm_faults.specs.Faults.{Refuses};
ghost use Rattle.lalrpop_norm_model.specs.CheckedTokens.{input_parameter, with_tokens};
ghost use Rattle.lalrpop_norm_model.specs.TerminalTypes.{input_lifetime};
ghost use Rattle.lalrpop_norm_model.specs.TokenFaults.{input_faults, is_input_lifetime};

use lalrpop_norm_faults::{FaultKind, NormResult, refusal};
use lalrpop_norm_tree::grammar::parse_tree::{
    Atom, Grammar, GrammarItem, InternToken, Lifetime, NoMemory, Parameter, TypeParameter, TypeRef,
};
use std::alloc::Global;

/// Rejects the names that internal tokens add, where the grammar declares them.
pub(super) fn check_input(alloc: Global, grammar: &Grammar) -> NormResult<()>
    ensures { Refuses result (input_faults (grammar_view grammar.now)) }
{
    if has_input_lifetime(&grammar.type_parameters) {
        return Err(refusal(
            FaultKind::InputLifetime,
            grammar.span,
            format!(in alloc;
                "`'input` is declared by the generated tokenizer: remove it from `grammar<..>`; it can be used without a declaration"
            ),
        ));
    }
    if has_input_parameter(&grammar.parameters) {
        return Err(refusal(
            FaultKind::InputParameter,
            grammar.span,
            format!(in alloc;
                "the parameter `input` is declared by the generated tokenizer: remove it from the grammar's parameters; it can be used without a declaration"
            ),
        ));
    }
    Ok(())
}

fn has_input_lifetime(parameters: &[TypeParameter]) -> bool
    ensures { result ≡ list_any is_input_lifetime parameters.now }
{
    for parameter in parameters {
        if is_input_lifetime(parameter) {
            return true;
        }
    }
    false
}

fn is_input_lifetime(parameter: &TypeParameter) -> bool
    ensures { result ≡ is_input_lifetime parameter.now }
{
    match parameter {
        TypeParameter::Lifetime(lifetime) => lifetime.0.as_str() == "'input",
        TypeParameter::Id(_) => false,
    }
}

fn has_input_parameter(parameters: &[Parameter]) -> bool
    ensures { result ≡ list_any (λ p. bytes_eq p.name (codes "input")) (map parameter_view parameters.now) }
{
    for parameter in parameters {
        if parameter.name.as_str() == "input" {
            return true;
        }
    }
    false
}

/// The grammar with internal tokens: they are the last item, `'input` is the first type parameter and `input` the last parameter.
pub(super) fn with_tokens(
    alloc: Global,
    mut grammar: Grammar,
    tokens: InternToken,
) -> Result<Grammar, NoMemory>
    ensures { IfOk result (λ g. grammar_view g ≡ with_tokens (intern_token_view tokens) (grammar_view grammar)) }
{
    add_tokens(alloc, &mut grammar, tokens)?;
    Ok(grammar)
}

fn add_tokens(alloc: Global, grammar: &mut Grammar, tokens: InternToken) -> Result<(), NoMemory>
    ensures { OnOk result (grammar_view grammar.new ≡ with_tokens (intern_token_view tokens) (grammar_view grammar.old)) }
{
    grammar.items.push(GrammarItem::InternToken(tokens))?;
    let lifetime = TypeParameter::Lifetime(Lifetime::input(alloc)?);
    grammar.type_parameters.insert(0, lifetime)?;
    grammar.parameters.push(input_parameter(alloc)?)?;
    Ok(())
}

/// `input: &'input str`.
fn input_parameter(alloc: Global) -> Result<Parameter, NoMemory>
    ensures { IfOk result (λ p. parameter_view p ≡ input_parameter) }
{
    let ty = input_type(alloc)?;
    Ok(Parameter {
        name: Atom::new(alloc, "input")?,
        ty,
    })
}

/// `&'input str`.
fn input_type(alloc: Global) -> Result<TypeRef, NoMemory>
    ensures { IfOk result (λ t. type_view t ≡ reference (Some input_lifetime) false (id (codes "str"))) }
{
    let lifetime = Lifetime::input(alloc)?;
    let text = TypeRef::Id(Atom::new(alloc, "str")?);
    let referent = Box::new(alloc, text)?;
    Ok(TypeRef::Ref {
        lifetime: Some(lifetime),
        mutable: false,
        referent,
    })
}
