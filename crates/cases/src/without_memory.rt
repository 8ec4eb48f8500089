//! What calls answer that allocate nothing: there is room for all that is written, and nothing else is made.
use crate::asks::{push_asked_attributes, push_asked_extern, push_first_blocks, push_presence};
use crate::faults::{push_failure, side_name};
use crate::made::{cloned, push_after};
use crate::passes::typed;
use crate::spans::push_span;
use crate::text::Text;
use crate::texts::push_algorithms;
use lalrpop_norm::normalize::cond_comp::remove_disabled_decls;
use lalrpop_norm::normalize::lower::is_typed;
use lalrpop_norm::normalize::{FaultKind, Session, is_expanded};
use lalrpop_norm_precedence::precedence::{Assoc, has_prec_attr};
use lalrpop_norm_repr::grammar::repr;
use lalrpop_norm_repr::grammar::repr::{ActionFn, TypeRepr, Types};
use lalrpop_norm_tree::grammar::parse_tree::{
    Grammar, Name, NonterminalData, NonterminalString, Symbol, SymbolKind, TerminalString, Tuple,
};
use std::alloc::Global;

/// Bytes of room: more than is written.
const ROOM: usize = 1 << 16;

/// The answers of the tree with its names resolved and of the types of its rules, and how many of its items are on.
pub(crate) fn push_without_memory<L>(
    alloc: Global,
    text: &mut Text,
    session: &Session<L>,
    tree: Grammar,
) {
    match typed(alloc, tree) {
        Ok((tree, types)) => {
            push_answers(alloc, text, session, &tree, &types);
            match remove_disabled_decls(session, tree) {
                Ok(tree) => text.show_between("", tree.items.len(), " items are on\n"),
                Err(_) => text.put("memory\n"),
            }
        }
        Err(failure) => push_failure(text, false, &failure),
    }
}

fn push_answers<L>(
    alloc: Global,
    text: &mut Text,
    session: &Session<L>,
    tree: &Grammar,
    types: &Types,
) {
    text.reserve(ROOM);
    push_first_blocks(text, tree);
    push_algorithms(text, &tree.attributes);
    for item in &tree.items {
        if let Some(block) = item.as_extern_token() {
            push_asked_extern(text, block);
        }
        if let Some(rule) = item.as_nonterminal() {
            push_head(text, rule, types);
            push_asked_attributes(text, session, &rule.attributes);
            push_of_name(alloc, text, rule);
            push_actions(text, rule);
        }
    }
    text.show_after("expanded: ", is_expanded(tree));
    text.show_line(", typed: ", is_typed(session, tree, types));
    push_values(text, types);
}

fn push_head(text: &mut Text, rule: &NonterminalData, types: &Types) {
    text.show_after("rule ", &rule.name);
    text.show_after(" of length ", rule.name.len());
    text.show_after(", public: ", rule.visibility.is_pub());
    text.show_after(", macro: ", rule.is_macro_def());
    text.show_after(", levels: ", has_prec_attr(rule));
    if let Some(ty) = types.lookup_nonterminal_type(&rule.name) {
        text.show_after(", type ", ty);
        if let TypeRepr::Nominal(nominal) = ty {
            text.debug_after(" of the name ", nominal.path.as_id());
        }
    }
}

/// Values that are made of a rule's name.
fn push_of_name(alloc: Global, text: &mut Text, rule: &NonterminalData) {
    let reference = SymbolKind::Nonterminal(NonterminalString(rule.name.0.again()));
    let quoted = TerminalString::quoted(rule.name.0.again());
    let name = Name::new(false, rule.name.0.again());
    let immutable = Name::immut(rule.name.0.again());
    text.show_after("   ", &immutable);
    text.show_after(" equal ", name == immutable);
    push_after(text, " ", cloned(&rule.name.0));
    text.debug_after(" ", quoted.as_literal());
    text.show_after(" ", quoted);
    text.show_after(" ", TerminalString::regex(rule.name.0.again()));
    text.show_after(" ", Symbol::new(rule.span, reference));
    text.show_after(" ", Name::new(true, rule.name.0.again()));
    text.show_line(" ", Tuple::new(Vec::new(alloc)));
}

fn push_actions(text: &mut Text, rule: &NonterminalData) {
    for alternative in &rule.alternatives {
        text.put("   action");
        if let Some(action) = &alternative.action {
            push_presence(text, action);
        }
        push_span(text, alternative.span, "\n");
    }
}

/// The number of an action, an associativity, the number of a fault, and whether the error terminal has the unit type.
fn push_values(text: &mut Text, types: &Types) {
    text.show_between("action ", ActionFn::new(22).index(), ", fault ");
    text.put(FaultKind::RecursionCap.code());
    text.put(", side ");
    match "none".parse::<Assoc>() {
        Ok(side) => text.put(side_name(&side)),
        Err(_) => text.put("of no name"),
    }
    let error = repr::Symbol::Terminal(TerminalString::Error);
    text.show_line(", error of the unit type: ", error.ty(types).is_unit());
}
