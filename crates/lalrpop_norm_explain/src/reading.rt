//! Lowered trees read by the origins of their productions.
ghost use Rattle.std.specs.Prelude.{◌≡◌, Bool, IfOk, length, [], ◌∷◌};
ghost use Rattle.lalrpop_norm_theory.specs.Symbols.{Name};
ghost use Rattle.lalrpop_norm_theory.specs.LoweredTrees.{plus_more};
ghost use Rattle.lalrpop_norm_theory.specs.Same.{same_closed_terminal};
ghost use Rattle.lalrpop_norm_theory.specs.Translations.{first_tree, elements, made_by, written_tree, written_each};
ghost use Rattle.lalrpop_norm_explain.specs.TreeFaults.{Finds, FindsUp, IsFoundUp, is_of, is_begun, has_productions, child_faults};
ghost use Rattle.lalrpop_norm_explain.specs.TreeFaults.{tree_faults, children_faults, explain_faults, Reads};
ghost use Rattle.lalrpop_norm_model.specs.Reading.{terminal_of};
ghost use Rattle.lalrpop_norm_origins.specs.Origins.{origin_view};
ghost use Rattle.lalrpop_norm_explain.specs.Derivations.{tree_symbol, symbols_view};
ghost use Rattle.lalrpop_norm_explain.specs.TracedGrammars.{grammar_of, is_root};
ghost use Rattle.lalrpop_norm_explain.specs.Trees.{lowered_view, lowered_views, written_view, written_views};

use crate::errors::{ExplainError, ExplainFault};
use crate::traced::Traced;
use crate::trees::{LoweredTree, WrittenTree, name_again, terminal_again};
use lalrpop_norm_origins::Origin;
use lalrpop_norm_repr::grammar::repr::Symbol;
use lalrpop_norm_tree_names::names::TerminalString;
use shared_text::NoMemory;
use std::alloc::Global;

/// The written tree that the origins make of a lowered tree: a node of the rule or macro of a written origin, the child of a
/// step, a list of a group or a repeat, nothing of a location symbol.
///
/// The first fault is reported, a node before its children, these from left to right: the root (X1), a node without its
/// production (X2), then the number of its children, then each child that is not of its symbol (X3). The other error is a failed
/// allocation.
pub fn explain(
    alloc: Global,
    traced: &Traced,
    tree: &LoweredTree,
) -> Result<WrittenTree, ExplainError>
    ensures { Finds result (explain_faults (is_root traced.now) (grammar_of traced.now) (lowered_view tree.now))
        (λ t. Reads (grammar_of traced.now) (lowered_view tree.now) (written_view t)) }
{
    explain_begun(alloc, traced, tree, begins(traced, tree))
}

/// Reads, as [`explain`] does, a derivation tree that begins at any nonterminal of the lowered grammar: a level, a repeat, a
/// group, a location symbol, a call of a macro, a start symbol.
///
/// The first fault is reported, as by `explain`; X1 says that the root is a leaf, or that its nonterminal has no production.
pub fn explain_at(
    alloc: Global,
    traced: &Traced,
    tree: &LoweredTree,
) -> Result<WrittenTree, ExplainError>
    ensures { Finds result (explain_faults (has_productions (grammar_of traced.now)) (grammar_of traced.now) (lowered_view tree.now))
        (λ t. Reads (grammar_of traced.now) (lowered_view tree.now) (written_view t)) }
{
    explain_begun(alloc, traced, tree, begins_anywhere(traced, tree))
}

/// What a tree reads as, if trees begin at its root.
fn explain_begun(
    alloc: Global,
    traced: &Traced,
    tree: &LoweredTree,
    begun: bool,
) -> Result<WrittenTree, ExplainError>
    ensures { (roots : Name → Bool) → begun ≡ is_begun roots (lowered_view tree.now) →
        Finds result (explain_faults roots (grammar_of traced.now) (lowered_view tree.now))
        (λ t. Reads (grammar_of traced.now) (lowered_view tree.now) (written_view t)) }
{
    if !begun {
        return Err(refused(alloc, ExplainFault::Root));
    }
    match explain_node(alloc, traced, tree) {
        Ok(written) => Ok(written),
        Err(error) => Err(error.turned()),
    }
}

/// Whether trees may begin at the root of a tree.
fn begins(traced: &Traced, tree: &LoweredTree) -> bool
    ensures { result ≡ is_begun (is_root traced.now) (lowered_view tree.now) }
{
    match tree {
        LoweredTree::Leaf(_) => false,
        LoweredTree::Node { nonterminal, .. } => traced.is_rule(nonterminal),
    }
}

/// Whether the root of a tree is of a nonterminal that has productions.
fn begins_anywhere(traced: &Traced, tree: &LoweredTree) -> bool
    ensures { result ≡ is_begun (has_productions (grammar_of traced.now)) (lowered_view tree.now) }
{
    match tree {
        LoweredTree::Leaf(_) => false,
        LoweredTree::Node { nonterminal, .. } => traced.has_productions(nonterminal),
    }
}

/// A fault at the root.
pub(crate) fn refused(alloc: Global, fault: ExplainFault) -> ExplainError
    ensures { IsFoundUp ((fault, []) ∷ []) result }
{
    ExplainError::Refused {
        fault,
        path: Vec::new(alloc),
    }
}

/// What a tree reads as, whatever its root is; paths lead upwards.
#[cycle(nodes)]
fn explain_node(
    alloc: Global,
    traced: &Traced,
    tree: &LoweredTree,
) -> Result<WrittenTree, ExplainError>
    ensures { FindsUp result (tree_faults (grammar_of traced.now) (lowered_view tree.now))
        (λ t. written_view t ≡ written_tree (grammar_of traced.now) (lowered_view tree.now)) }
{
    match tree {
        LoweredTree::Leaf(text) => Ok(WrittenTree::Leaf(terminal_again(text))),
        LoweredTree::Node {
            nonterminal,
            production,
            children,
        } => match traced.production(nonterminal, *production) {
            None => Err(refused(alloc, ExplainFault::Production)),
            Some((symbols, origin)) => {
                if children.len() != symbols.len() {
                    return Err(refused(alloc, ExplainFault::Child));
                }
                let written = explain_children(alloc, traced, symbols, children)?;
                Ok(made_by(alloc, origin, written)?)
            }
        },
    }
}

/// What the trees of some symbols read as.
#[cycle(nodes)]
fn explain_children(
    alloc: Global,
    traced: &Traced,
    symbols: &[Symbol],
    children: &[LoweredTree],
) -> Result<Vec<WrittenTree>, ExplainError>
    requires { length children.now ≡ length symbols.now }
    ensures { FindsUp result (children_faults (grammar_of traced.now) (lowered_views children.now) (symbols_view symbols.now) 0)
        (λ ts. written_views ts.items ≡ written_each (grammar_of traced.now) (lowered_views children.now)) }
{
    let mut written = Vec::new(alloc);
    for (place, child) in children.iter().enumerate() {
        let tree = explain_child(alloc, traced, &symbols[place], child, place)?;
        written.push(tree)?;
    }
    Ok(written)
}

/// The reading of the tree at an index of a node, if it is of its symbol.
#[cycle(nodes)]
fn explain_child(
    alloc: Global,
    traced: &Traced,
    symbol: &Symbol,
    child: &LoweredTree,
    place: usize,
) -> Result<WrittenTree, ExplainError>
    ensures { FindsUp result (child_faults place (is_of (tree_symbol symbol.now) (lowered_view child.now))
        (tree_faults (grammar_of traced.now) (lowered_view child.now)))
        (λ t. written_view t ≡ written_tree (grammar_of traced.now) (lowered_view child.now)) }
{
    if !is_of(symbol, child) {
        return Err(refused(alloc, ExplainFault::Child).raised(place));
    }
    match explain_node(alloc, traced, child) {
        Ok(tree) => Ok(tree),
        Err(error) => Err(error.raised(place)),
    }
}

/// Whether a tree is of a symbol, seen at its root.
fn is_of(symbol: &Symbol, tree: &LoweredTree) -> bool
    ensures { result ≡ is_of (tree_symbol symbol.now) (lowered_view tree.now) }
{
    match (symbol, tree) {
        (Symbol::Terminal(wanted), LoweredTree::Leaf(text)) => is_same(wanted, text),
        (Symbol::Nonterminal(wanted), LoweredTree::Node { nonterminal, .. }) => {
            wanted.0 == nonterminal.0
        }
        (Symbol::Terminal(_), LoweredTree::Node { .. }) => false,
        (Symbol::Nonterminal(_), LoweredTree::Leaf(_)) => false,
    }
}

/// Whether two terminals are equal.
pub(crate) fn is_same(a: &TerminalString, b: &TerminalString) -> bool
    ensures { result ≡ same_closed_terminal (terminal_of a.now) (terminal_of b.now) }
{
    *a == *b
}

/// What an origin makes of the children's trees.
fn made_by(
    alloc: Global,
    origin: &Origin,
    children: Vec<WrittenTree>,
) -> Result<WrittenTree, NoMemory>
    ensures { IfOk result (λ t. written_view t ≡ made_by (origin_view origin.now) (written_views children.items)) }
{
    match origin {
        Origin::Start | Origin::LevelStep | Origin::StarSome => Ok(first(children)),
        Origin::Written { rule, alternative } => Ok(WrittenTree::Node {
            rule: name_again(rule),
            alternative: *alternative,
            children,
        }),
        Origin::Group | Origin::PlusOne | Origin::QuestionSome | Origin::Times => {
            Ok(WrittenTree::List(children))
        }
        Origin::StarEmpty | Origin::QuestionEmpty => Ok(WrittenTree::List(Vec::new(alloc))),
        Origin::PlusMore => Ok(extended(alloc, children)?),
        Origin::Lookahead | Origin::Lookbehind => Ok(WrittenTree::Nothing),
    }
}

/// The first tree.
fn first(mut trees: Vec<WrittenTree>) -> WrittenTree
    ensures { written_view result ≡ first_tree (written_views trees.items) }
{
    if trees.is_empty() {
        WrittenTree::Nothing
    } else {
        trees.remove(0)
    }
}

/// The elements of a list.
fn elements(alloc: Global, tree: WrittenTree) -> Vec<WrittenTree>
    ensures { written_views result.items ≡ elements (written_view tree) }
{
    match tree {
        WrittenTree::List(trees) => trees,
        WrittenTree::Leaf(_) | WrittenTree::Nothing | WrittenTree::Node { .. } => Vec::new(alloc),
    }
}

/// The list that the first tree is, with the second at its end.
fn extended(alloc: Global, mut trees: Vec<WrittenTree>) -> Result<WrittenTree, NoMemory>
    ensures { IfOk result (λ t. written_view t ≡ made_by plus_more (written_views trees.items)) }
{
    let last = if trees.len() < 2 {
        WrittenTree::Nothing
    } else {
        trees.remove(1)
    };
    let mut list = elements(alloc, first(trees));
    list.push(last)?;
    Ok(WrittenTree::List(list))
}
