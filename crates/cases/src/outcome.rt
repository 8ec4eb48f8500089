//! What the last part of a call answers of a tree, and how it is printed.
use crate::asks::push_asked;
use crate::back::push_traced;
use crate::copies::push_copies;
use crate::faults::push_failure;
use crate::look_ups::{add_parts, push_look_ups};
use crate::made::{push_debug_line, put_apart, show_or_memory};
use crate::passes::{Stopped, expanded_with_origins, lowered_alone, made, tree_after, typed};
use crate::tables::push_types;
use crate::text::Text;
use crate::texts::push_texts;
use crate::values::push_values;
use crate::without_memory::push_without_memory;
use lalrpop_norm::grammar::repr;
use lalrpop_norm::lexer::CheckOnly;
use lalrpop_norm::normalize::lower::is_typed;
use lalrpop_norm::normalize::prevalidate::malformed_cfgs;
use lalrpop_norm::normalize::{Session, normalize, normalize_traced};
use lalrpop_norm_lexer::lexer::Lexer;
use lalrpop_norm_lowered_json::whole::grammar_json;
use lalrpop_norm_macro_expand::macro_expand::expand_macros_counted;
use lalrpop_norm_origins::Origin;
use lalrpop_norm_tree::grammar::parse_tree::Grammar;
use lnorm_run::lines::push_origin;
use std::alloc::Global;

/// What the call of that name answers of the tree; a fault with its message, if that is told.
pub(crate) fn push_last(
    alloc: Global,
    text: &mut Text,
    session: &Session<CheckOnly>,
    is_told: bool,
    name: &str,
    tree: Grammar,
) {
    if is_look(name) {
        show_or_memory(text, |text| push_look(alloc, text, session, name, &tree));
        drop(tree);
    } else {
        push_later(alloc, text, session, is_told, name, tree);
    }
}

/// Whether the call only looks at the tree.
fn is_look(name: &str) -> bool {
    match name {
        "copy" => true,
        "ask" => true,
        "texts" => true,
        "copies" => true,
        "malformed_cfgs" => true,
        _ => false,
    }
}

/// What looks at the tree answer.
fn push_look(
    alloc: Global,
    text: &mut Text,
    session: &Session<CheckOnly>,
    name: &str,
    tree: &Grammar,
) {
    match name {
        "ask" => push_asked(alloc, text, session, tree),
        "texts" => push_texts(alloc, text, tree),
        "copies" => push_copies(alloc, text, tree),
        "malformed_cfgs" => push_debug_line(text, "malformed: ", malformed_cfgs(alloc, tree)),
        _ => push_debug_line(text, "", tree.clone()),
    }
}

/// The types of the tree, or the lowered grammar; or what an expansion or a pass answers.
fn push_later(
    alloc: Global,
    text: &mut Text,
    session: &Session<CheckOnly>,
    is_told: bool,
    name: &str,
    tree: Grammar,
) {
    match name {
        "infer_types" => {
            let typed = made(typed(alloc, tree));
            push_made(text, is_told, typed, |text, (_, types)| {
                push_types(text, types);
            });
        }
        "is_typed" => {
            let typed = made(typed(alloc, tree));
            push_made(text, is_told, typed, |text, (tree, types)| {
                text.show_line("typed: ", is_typed(session, tree, types));
            });
        }
        "without_memory" => push_without_memory(alloc, text, session, tree),
        "lower" => push_lowered(
            alloc,
            text,
            is_told,
            name,
            lowered_alone(alloc, session, tree),
        ),
        "normalize" => push_normalized(alloc, text, session, is_told, name, tree),
        "lowered_copy" => push_normalized(alloc, text, session, is_told, name, tree),
        "values" => push_normalized(alloc, text, session, is_told, name, tree),
        "traced" => {
            let traced = made(normalize_traced(alloc, session, tree));
            push_made(text, is_told, traced, |text, traced| {
                push_traced(alloc, text, traced);
            });
        }
        _ => push_expanded(alloc, text, session, is_told, name, tree),
    }
}

/// The text of what was made, or why nothing was. Either ends.
fn push_made<T: Drop, F: FnOnce(&mut Text, &T)>(
    text: &mut Text,
    is_told: bool,
    made: Result<T, Stopped>,
    push: F,
)
    requires { F.IsAlwaysCallable push }
{
    match made {
        Ok(value) => push(text, &value),
        Err(stopped) => push_stopped(text, is_told, &stopped),
    }
}

/// Why there is no answer.
pub(crate) fn push_stopped(text: &mut Text, is_told: bool, stopped: &Stopped) {
    match stopped {
        Stopped::NotATree => text.put("not a tree\n"),
        Stopped::Failed(failure) => push_failure(text, is_told, failure),
        Stopped::NotExpanded => text.put("not expanded\n"),
        Stopped::NoSuchCall => text.put("no such call\n"),
    }
}

/// The tree after an expansion, and how much it did, or the origins of its alternatives; or after a pass.
fn push_expanded(
    alloc: Global,
    text: &mut Text,
    session: &Session<CheckOnly>,
    is_told: bool,
    name: &str,
    tree: Grammar,
) {
    match name {
        "expand_macros_counted" => {
            let limit = session.macro_recursion_limit;
            let expanded = made(expand_macros_counted(alloc, tree, limit));
            push_made(text, is_told, expanded, |text, (tree, counts)| {
                text.debug_line("", counts);
                text.debug_line("", tree);
            });
        }
        "expand_macros_traced" => {
            let expanded = made(expanded_with_origins(alloc, session, tree));
            push_made(text, is_told, expanded, |text, (tree, lists)| {
                text.debug_line("", tree);
                for list in lists {
                    push_origins(alloc, text, list);
                }
            });
        }
        _ => push_pass(alloc, text, session, is_told, name, tree),
    }
}

fn push_origins(alloc: Global, text: &mut Text, origins: &Vec<Origin>) {
    text.put("origins:");
    for origin in origins {
        text.put(" [");
        put_apart(alloc, text, |text| push_origin(text, origin));
        text.put("]");
    }
    text.end_line();
}

/// The tree after the pass of that name; one that only looks for faults has no tree of its own.
pub(crate) fn push_pass<L: Lexer>(
    alloc: Global,
    text: &mut Text,
    session: &Session<L>,
    is_told: bool,
    name: &str,
    tree: Grammar,
) {
    let after = tree_after(alloc, session, name, tree);
    push_made(text, is_told, after, |text, tree| match name {
        "validate" => text.put("ok\n"),
        "check_globals" => text.put("ok\n"),
        _ => text.debug_line("", tree),
    });
}

/// The lowered grammar that `normalize` makes, or what is asked of its copy.
pub(crate) fn push_normalized<L: Lexer>(
    alloc: Global,
    text: &mut Text,
    session: &Session<L>,
    is_told: bool,
    name: &str,
    tree: Grammar,
) {
    let lowered = made(normalize(alloc, session, tree));
    push_lowered(alloc, text, is_told, name, lowered);
}

/// The lowered grammar as JSON, in one line; or what is asked of its copy.
fn push_lowered(
    alloc: Global,
    text: &mut Text,
    is_told: bool,
    name: &str,
    lowered: Result<repr::Grammar, Stopped>,
) {
    push_made(text, is_told, lowered, |text, lowered| {
        show_or_memory(text, |text| match name {
            "lowered_copy" => push_copied(alloc, text, name, lowered),
            "values" => push_copied(alloc, text, name, lowered),
            _ => push_whole(alloc, text, lowered),
        })
    });
}

/// What is asked of a copy with some parts more.
fn push_copied(alloc: Global, text: &mut Text, name: &str, lowered: &repr::Grammar) {
    match lowered.clone() {
        Ok(mut copy) => {
            add_parts(alloc, text, &mut copy);
            match name {
                "values" => push_values(alloc, text, &copy),
                _ => {
                    push_whole(alloc, text, &copy);
                    push_look_ups(alloc, text, &copy);
                }
            }
        }
        Err(_) => text.is_whole = false,
    }
}

fn push_whole(alloc: Global, text: &mut Text, lowered: &repr::Grammar) {
    match grammar_json(alloc, lowered) {
        Ok(json) => match str::from_utf8(&json) {
            Ok(json) => text.show_line("", json),
            Err(_) => text.put("no text\n"),
        },
        Err(_) => text.is_whole = false,
    }
}
