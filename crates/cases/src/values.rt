//! What a lowered grammar is asked for that no pass asks, and values that no grammar holds: each call that makes one is made once,
//! with enough memory.
use crate::faults::{push_refusals, push_sides};
use crate::made::{
    atom, both, cloned, list_of_one, made_of, push_after, push_debug_line, push_line, show_made,
};
use crate::patterns::push_pattern;
use crate::tables::{push_made_types, push_types};
use crate::text::Text;
use crate::types::push_type;
use lalrpop_norm_repr::grammar::repr::{self, Production, TypeRepr, WhereClause};
use lalrpop_norm_tree::grammar::parse_tree::{
    Lifetime, MatchContents, MatchItem, MatchToken, NoMemory, Path, Span, TypeBound,
};
use shared_text::Atom;
use std::alloc::Global;

/// Of each group of values some lines.
pub(crate) fn push_values(alloc: Global, text: &mut Text, lowered: &repr::Grammar) {
    push_types(text, &lowered.types);
    push_made_types(alloc, text, &lowered.types);
    push_head(alloc, text, lowered);
    for (_, pattern) in &lowered.conversions {
        push_pattern(alloc, text, pattern);
    }
    push_nonterminals(text, lowered);
    for action in &lowered.action_fn_defns {
        push_debug_line(text, "action ", cloned(action));
    }
    push_names(alloc, text);
    push_owners(alloc, text);
    push_debug_line(text, "", block(alloc));
    push_debug_line(text, "", longer_block(alloc));
    push_refusals(alloc, text);
    push_sides(text);
}

// ---- the parts of the grammar

/// The copy of each parameter, and its type; the type that each type parameter is; the copy of each clause, by itself and under an
/// empty binder, and the arguments of its bound.
fn push_head(alloc: Global, text: &mut Text, lowered: &repr::Grammar) {
    for parameter in &lowered.parameters {
        push_line(text, "parameter ", cloned(parameter));
        push_type(alloc, text, &parameter.ty, &lowered.type_parameters);
    }
    for parameter in &lowered.type_parameters {
        let ty = TypeRepr::from_parameter(alloc, parameter);
        push_line(text, "of a type parameter ", ty);
    }
    for clause in &lowered.where_clauses {
        push_line(text, "where ", clause.clone());
        push_line(text, "  quantified ", under_no_binder(alloc, clause));
        push_arguments(text, clause);
    }
}

/// `for<> C`
fn under_no_binder(alloc: Global, clause: &WhereClause) -> Result<WhereClause, NoMemory> {
    let clause = Box::new(alloc, clause.clone()?)?;
    Ok(WhereClause::Forall {
        binder: Vec::new(alloc),
        clause,
    })
}

/// The copy of each argument of a bound, and the argument with whether its type is the unit type.
fn push_arguments(text: &mut Text, clause: &WhereClause) {
    if let WhereClause::Bound { bound, .. } = clause {
        if let TypeBound::Trait { parameters, .. } = bound {
            for argument in parameters {
                push_after(text, "  argument ", argument.clone());
                push_line(
                    text,
                    " is ",
                    argument.map(&mut |ty: &TypeRepr| Ok(ty.is_unit())),
                );
            }
        }
    }
}

/// Of each nonterminal how long its name is, its type and its productions.
fn push_nonterminals(text: &mut Text, lowered: &repr::Grammar) {
    for (name, nonterminal) in &lowered.nonterminals {
        text.show_after("nonterminal ", name);
        text.show_after(" of length ", name.len());
        text.show_after(", empty ", name.is_empty());
        if lowered.types.lookup_nonterminal_type(name).is_some() {
            text.show_after(" of type ", lowered.types.nonterminal_type(name));
        }
        text.end_line();
        push_productions(text, &nonterminal.productions);
    }
}

/// The copy of each production, and of each of its symbols whether it is a terminal.
fn push_productions(text: &mut Text, productions: &[Production]) {
    for production in productions {
        push_debug_line(text, "  ", cloned(production));
        for symbol in &production.symbols {
            text.debug_after("    symbol ", symbol);
            text.show_line(", terminal ", symbol.is_terminal());
        }
    }
}

// ---- values that no grammar holds

fn push_names(alloc: Global, text: &mut Text) {
    push_after(text, "paths ", Path::vec(alloc));
    push_after(text, " ", Path::usize(alloc));
    push_after(text, " ", Path::str(alloc));
    push_line(text, " ", Path::option(alloc));
    push_after(text, "types ", TypeRepr::usize(alloc));
    push_line(text, " ", TypeRepr::str(alloc));
    show_made(text, Lifetime::anonymous(alloc), push_lifetime);
    show_made(text, Lifetime::statik(alloc), push_lifetime);
    show_made(text, Lifetime::input(alloc), push_lifetime);
}

/// How long the lifetime is, and whether it is anonymous.
fn push_lifetime(text: &mut Text, lifetime: &Lifetime) {
    text.show_after("lifetime ", lifetime);
    text.show_after(" of length ", lifetime.len());
    text.show_after(", empty ", lifetime.is_empty());
    text.show_line(", anonymous ", lifetime.is_anonymous());
}

/// A text by one of three owners, when the other two have ended, and what two texts are to one another, also where they are equal.
fn push_owners(alloc: Global, text: &mut Text) {
    let owned = made_of(atom(alloc, "Expr<\"é\">"), further_owner);
    push_line(text, "owned ", owned);
    let equal = both(atom(alloc, "Term"), atom(alloc, "Term"));
    show_made(text, equal, push_compared);
    let unequal = both(atom(alloc, "Term"), atom(alloc, "Tern"));
    show_made(text, unequal, push_compared);
}

/// One more owner, and another between, which ends.
fn further_owner(first: &Atom) -> Result<Atom, NoMemory> {
    made_of(cloned(first), |between| cloned(between))
}

fn push_compared(text: &mut Text, pair: &(Atom, Atom)) {
    let (first, second) = pair;
    text.show_after("texts ", first);
    text.debug_after(" and ", second);
    text.show_after(", equal ", first == second);
    text.debug_line(", order ", first.cmp(second));
}

/// `match { _ }` at 3..8.
fn block(alloc: Global) -> Result<MatchToken, NoMemory> {
    MatchToken::new(alloc, catch_all(alloc, Span(5, 6))?, Span(3, 8))
}

/// `match { _ } else { _ }` at 3..8.
fn longer_block(alloc: Global) -> Result<MatchToken, NoMemory> {
    let (block, contents) = both(block(alloc), catch_all(alloc, Span(6, 7)))?;
    block.add(alloc, contents)
}

fn catch_all(alloc: Global, span: Span) -> Result<MatchContents, NoMemory> {
    let items = list_of_one(alloc, Ok(MatchItem::CatchAll(span)))?;
    Ok(MatchContents { items })
}
