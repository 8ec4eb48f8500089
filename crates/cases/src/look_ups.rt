//! What is added to a lowered grammar, and what is asked of it.
use crate::made::{add_made, atom, both, list_of_two, push_after, show_made};
use crate::text::Text;
use lalrpop_norm_repr::grammar::repr::{
    self, ActionFn, ActionFnDefn, ActionFnDefnKind, InlineActionFnDefn, InlinedSymbol, Lifetime,
    NonterminalString, Parameter, Symbol, TerminalString, TypeParameter, TypeRepr,
};
use shared_text::NoMemory;
use std::alloc::Global;

// ---- what is added

/// Two parameters, `n: usize` and `m: usize`, two type parameters, `'input` and `T`, and an action more.
pub(crate) fn add_parts(alloc: Global, text: &mut Text, lowered: &mut repr::Grammar) {
    add_made(text, &mut lowered.parameters, parameter(alloc, "n"));
    add_made(text, &mut lowered.parameters, parameter(alloc, "m"));
    add_made(text, &mut lowered.type_parameters, input(alloc));
    add_made(text, &mut lowered.type_parameters, named_t(alloc));
    add_made(text, &mut lowered.action_fn_defns, inline_action(alloc));
}

/// The parameter of that name, whose type is `usize`.
fn parameter(alloc: Global, name: &str) -> Result<Parameter, NoMemory> {
    let (name, ty) = both(atom(alloc, name), TypeRepr::usize(alloc))?;
    Ok(Parameter { name, ty })
}

fn input(alloc: Global) -> Result<TypeParameter, NoMemory> {
    Ok(TypeParameter::Lifetime(Lifetime::input(alloc)?))
}

fn named_t(alloc: Global) -> Result<TypeParameter, NoMemory> {
    Ok(TypeParameter::Id(atom(alloc, "T")?))
}

/// `ActionFn(22)(Y, ActionFn(44)(A, b))`, whose type is `usize`.
fn inline_action(alloc: Global) -> Result<ActionFnDefn, NoMemory> {
    let symbols = list_of_two(alloc, original(alloc), inlined(alloc));
    let (ret_type, symbols) = both(TypeRepr::usize(alloc), symbols)?;
    let action = ActionFn::new(22);
    Ok(ActionFnDefn {
        fallible: false,
        ret_type,
        kind: ActionFnDefnKind::Inline(InlineActionFnDefn { action, symbols }),
    })
}

fn original(alloc: Global) -> Result<InlinedSymbol, NoMemory> {
    Ok(InlinedSymbol::Original(nonterminal(alloc, "Y")?))
}

fn inlined(alloc: Global) -> Result<InlinedSymbol, NoMemory> {
    let symbols = list_of_two(alloc, nonterminal(alloc, "A"), terminal(alloc, "b"))?;
    Ok(InlinedSymbol::Inlined(ActionFn::new(44), symbols))
}

fn nonterminal(alloc: Global, name: &str) -> Result<Symbol, NoMemory> {
    Ok(Symbol::Nonterminal(rule_name(alloc, name)?))
}

fn rule_name(alloc: Global, name: &str) -> Result<NonterminalString, NoMemory> {
    Ok(NonterminalString(atom(alloc, name)?))
}

fn terminal(alloc: Global, name: &str) -> Result<Symbol, NoMemory> {
    Ok(Symbol::Terminal(TerminalString::Bare(atom(alloc, name)?)))
}

// ---- what is asked

/// What is asked of the lowered grammar.
pub(crate) fn push_look_ups(alloc: Global, text: &mut Text, lowered: &repr::Grammar) {
    push_references(alloc, text, lowered);
    push_productions_of(alloc, text, lowered, "S");
    push_productions_of(alloc, text, lowered, "U");
    text.show_between(
        "",
        lowered.terminals.bits.len(),
        " terminals with a number\n",
    );
    for terminal in &lowered.terminals.all {
        push_pattern_of(text, lowered, terminal);
    }
    push_fallible(text, lowered);
}

/// The pattern of the terminal, if it has one.
fn push_pattern_of(text: &mut Text, lowered: &repr::Grammar, terminal: &TerminalString) {
    if lowered.conversions.contains_key(terminal) {
        let pattern = lowered.pattern(terminal);
        text.show_after("pattern of ", terminal);
        text.show_line(": ", pattern);
    }
}

/// The numbers of the actions that may fail.
fn push_fallible(text: &mut Text, lowered: &repr::Grammar) {
    text.put("actions that may fail");
    for number in 0..lowered.action_fn_defns.len() {
        if number < 4294967296 && lowered.action_is_fallible(ActionFn::new(number)) {
            text.show_after(" ", number);
        }
    }
    text.end_line();
}

fn push_productions_of(alloc: Global, text: &mut Text, lowered: &repr::Grammar, name: &str) {
    show_made(text, rule_name(alloc, name), |text, name| {
        text.show_after("productions of ", name);
        text.debug_after(" of type ", lowered.types.lookup_nonterminal_type(name));
        text.debug_line(": ", lowered.productions_for(name));
    });
}

fn push_references(alloc: Global, text: &mut Text, lowered: &repr::Grammar) {
    match lowered.non_lifetime_type_parameters(alloc) {
        Ok(types) => {
            let references = lowered.user_parameter_refs(alloc);
            push_after(text, "parameters ", references);
            text.show_between("and ", types.len(), " type\n");
        }
        Err(_) => text.is_whole = false,
    }
}
