//! The passes over trees.
ghost use Rattle.std.specs.Prelude.{IfOk};
ghost use Rattle.lalrpop_norm_model.specs.Expanded.{rule_names};
ghost use Rattle.lalrpop_norm_theory.specs.Rounds.{IsDistinct};
ghost use Rattle.lalrpop_norm_tree.specs.Items.{grammar_view};

use crate::made::{both, kept};
use lalrpop_norm::grammar::repr;
use lalrpop_norm::normalize::cond_comp::remove_disabled_decls;
use lalrpop_norm::normalize::lower::{is_typed, lower};
use lalrpop_norm::normalize::precedence::expand_precedence;
use lalrpop_norm::normalize::prevalidate::validate;
use lalrpop_norm::normalize::resolve::{check_globals, resolve};
use lalrpop_norm::normalize::{NormFailure, NormResult, Session, is_expanded, token_check};
use lalrpop_norm_json::{TreeError, read_tree};
use lalrpop_norm_lexer::lexer::Lexer;
use lalrpop_norm_macro_expand::expand_macros_traced;
use lalrpop_norm_macro_expand::macro_expand::expand_macros;
use lalrpop_norm_origins::Origin;
use lalrpop_norm_precedence::precedence::expand_levels;
use lalrpop_norm_prevalidate::cond_comp::remove_disabled_traced;
use lalrpop_norm_repr::grammar::repr::Types;
use lalrpop_norm_tree::grammar::parse_tree::Grammar;
use lalrpop_norm_tyinfer::tyinfer::infer_types;
use std::alloc::Global;

/// Why there is no answer.
#[derive(Drop)]
pub(crate) enum Stopped {
    /// The bytes are no tree.
    NotATree,
    /// A call failed.
    Failed(NormFailure),
    /// A pass was not run, since the tree is not expanded.
    NotExpanded,
    /// There is no call of the name.
    NoSuchCall,
}

/// What was made.
pub(crate) fn made<T: Drop>(made: NormResult<T>) -> Result<T, Stopped> {
    match made {
        Ok(value) => Ok(value),
        Err(failure) => Err(Stopped::Failed(failure)),
    }
}

/// The tree that the bytes are.
pub(crate) fn read_bytes(alloc: Global, bytes: &[u8]) -> Result<Grammar, Stopped> {
    match str::from_utf8(bytes) {
        Ok(json) => match read_tree(alloc, json) {
            Ok(tree) => Ok(tree),
            Err(TreeError::NotATree) => Err(Stopped::NotATree),
            Err(TreeError::Memory) => Err(Stopped::Failed(NormFailure::Memory)),
        },
        Err(_) => Err(Stopped::NotATree),
    }
}

/// The tree that the bytes are, after the passes of those names, which have `,` between each two.
pub(crate) fn tree_after_all<L: Lexer>(
    alloc: Global,
    session: &Session<L>,
    passes: &str,
    bytes: &[u8],
) -> Result<Grammar, Stopped> {
    let mut tree = read_bytes(alloc, bytes)?;
    for pass in passes.split(",") {
        tree = tree_after(alloc, session, pass, tree)?;
    }
    Ok(tree)
}

/// The tree after the pass of that name. That on tokens is run where the tree is expanded and has no tokenizer.
pub(crate) fn tree_after<L: Lexer>(
    alloc: Global,
    session: &Session<L>,
    pass: &str,
    tree: Grammar,
) -> Result<Grammar, Stopped> {
    match pass {
        "read" => Ok(tree),
        "validate" => made(validated(alloc, tree)),
        "check_globals" => made(with_checked_globals(alloc, tree)),
        "remove_disabled_decls" => made(remove_disabled_decls(session, tree)),
        "resolve" => made(resolve(alloc, tree)),
        "expand_levels" => made(expand_levels(alloc, tree)),
        "expand_precedence" => made(expand_precedence(alloc, tree)),
        "expand_macros" => made(expand_macros(alloc, tree, session.macro_recursion_limit)),
        "token_check" => if is_expanded(&tree) && tree.intern_token().is_none() {
            made(token_check::validate(alloc, &session.lexer, tree))
        } else {
            Err(Stopped::NotExpanded)
        },
        _ => Err(Stopped::NoSuchCall),
    }
}

fn validated(alloc: Global, tree: Grammar) -> NormResult<Grammar> {
    let done = validate(alloc, &tree);
    kept(tree, done)
}

fn with_checked_globals(alloc: Global, tree: Grammar) -> NormResult<Grammar> {
    let done = check_globals(alloc, &tree);
    kept(tree, done)
}

/// The tree that the session's features leave, expanded, and the origins of its alternatives: one list for each rule.
pub(crate) fn expanded_with_origins<L>(
    alloc: Global,
    session: &Session<L>,
    tree: Grammar,
) -> NormResult<(Grammar, Vec<Vec<Origin>>)> {
    let (enabled, origins) = remove_disabled_traced(alloc, session, tree)?;
    expand_macros_traced(alloc, enabled, session.macro_recursion_limit, origins)
}

/// The tree with its names resolved, and the types of its rules.
pub(crate) fn typed(alloc: Global, tree: Grammar) -> NormResult<(Grammar, Types)> {
    let tree = resolved(alloc, tree)?;
    let types = infer_types(alloc, &tree);
    both(Ok(tree), types)
}

/// The tree with its names resolved. No two of its rules have one name then.
fn resolved(alloc: Global, tree: Grammar) -> NormResult<Grammar>
    ensures { IfOk result (λ g. IsDistinct (rule_names (grammar_view g))) }
{
    let tree = resolve(alloc, tree)?;
    Ok(tree)
}

/// The tree with its names resolved, lowered over the types of its rules, where both are what `lower` takes.
pub(crate) fn lowered_alone<L>(
    alloc: Global,
    session: &Session<L>,
    tree: Grammar,
) -> Result<repr::Grammar, Stopped> {
    match typed(alloc, tree) {
        Ok((tree, types)) => if is_expanded(&tree) && is_typed(session, &tree, &types) {
            made(lower(alloc, session, tree, types))
        } else {
            Err(Stopped::NotExpanded)
        },
        Err(failure) => Err(Stopped::Failed(failure)),
    }
}
