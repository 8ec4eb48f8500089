//! Nodes, and the rows that give them ids.
ghost use Rattle.std.specs.Prelude.{◌≡◌, ◌++◌, ◌∷◌, [], None, OnOk, IfOk, IfSome, IfNone, map};
ghost use Rattle.lalrpop_norm_nodes.specs.Wholes.{wholes, texts_of, Fits, built, AreNodes, StandsFor, IsNew, EntersPlain};
ghost use Rattle.lalrpop_norm_nodes.specs.Tables.{own_text_in};
ghost use Rattle.lalrpop_norm_nodes.specs.NodeWrites.{case_of};

use indexmap::IndexMap;
use lalrpop_norm_names::Seeded;
use lalrpop_norm_tree::grammar::parse_tree::{Atom, NoMemory, TerminalLiteral, TerminalString};
use std::alloc::Global;
use std::hash::{Hash, Hasher};

/// What has neither a name nor parts.
#[derive(Clone, Copy, PartialEq, Eq)]
pub enum Leaf {
    /// No symbols.
    NoSymbols,
    /// No patterns.
    NoPatterns,
    /// `@L`.
    Lookahead,
    /// `@R`.
    Lookbehind,
    /// `!`.
    Error,
}

/// What a name by itself is.
#[derive(Clone, Copy, PartialEq, Eq)]
pub enum NamedLeaf {
    /// A rule. An identifier counts as the name of one.
    Rule,
    /// The pattern `x`.
    Pattern,
    /// The pattern `mut x`.
    MutPattern,
}

/// What has one part and no name.
#[derive(Clone, Copy, PartialEq, Eq)]
pub enum Unary {
    /// `(X Y)`, a group of symbols in a row.
    Group,
    /// `X*`.
    Star,
    /// `X+`.
    Plus,
    /// `X?`.
    Question,
    /// `X{n}`.
    Times(u16),
    /// `<X>`.
    Chosen,
    /// `(x, y)`, the pattern of patterns in a row.
    Several,
}

/// What has a name and one part.
#[derive(Clone, Copy, PartialEq, Eq)]
pub enum NamedUnary {
    /// `M<X, Y>`, a call of a macro with symbols in a row.
    Call,
    /// `<x:X>`.
    Named,
    /// `<mut x:X>`.
    NamedMut,
}

/// What has two parts.
#[derive(Clone, Copy, PartialEq, Eq)]
pub enum Binary {
    /// Symbols in a row, and one more.
    Symbols,
    /// Patterns in a row, and one more.
    Patterns,
    /// `<(x, y):X>`: patterns in a row, and a symbol.
    Tuple,
}

/// An interned term: a symbol, a pattern, or several of them in a row: its case, its name, and the ids of its parts.
#[derive(PartialEq, Eq, Drop)]
pub enum Node {
    /// Without a name or parts.
    Leaf(Leaf),
    /// Only a name.
    NamedLeaf(NamedLeaf, Atom),
    /// A terminal.
    Terminal(TerminalString),
    /// With one part.
    Unary(Unary, usize),
    /// With a name and one part.
    NamedUnary(NamedUnary, Atom, usize),
    /// With two parts.
    Binary(Binary, usize, usize),
}

/// A node's case as a number: all that it is but for its text and its parts.
fn case_of(node: &Node) -> u64
    ensures { result ≡ case_of node.now }
{
    match node {
        Node::Leaf(Leaf::NoSymbols) => 0,
        Node::Leaf(Leaf::NoPatterns) => 1,
        Node::Leaf(Leaf::Lookahead) => 2,
        Node::Leaf(Leaf::Lookbehind) => 3,
        Node::Leaf(Leaf::Error) => 4,
        Node::NamedLeaf(NamedLeaf::Rule, _) => 5,
        Node::NamedLeaf(NamedLeaf::Pattern, _) => 6,
        Node::NamedLeaf(NamedLeaf::MutPattern, _) => 7,
        Node::Terminal(TerminalString::Literal(TerminalLiteral::Quoted(_))) => 8,
        Node::Terminal(TerminalString::Literal(TerminalLiteral::Regex(_))) => 9,
        Node::Terminal(TerminalString::Bare(_)) => 10,
        Node::Terminal(TerminalString::Error) => 11,
        Node::Unary(Unary::Group, _) => 12,
        Node::Unary(Unary::Star, _) => 13,
        Node::Unary(Unary::Plus, _) => 14,
        Node::Unary(Unary::Question, _) => 15,
        Node::Unary(Unary::Chosen, _) => 16,
        Node::Unary(Unary::Several, _) => 17,
        Node::NamedUnary(NamedUnary::Call, _, _) => 18,
        Node::NamedUnary(NamedUnary::Named, _, _) => 19,
        Node::NamedUnary(NamedUnary::NamedMut, _, _) => 20,
        Node::Binary(Binary::Symbols, _, _) => 21,
        Node::Binary(Binary::Patterns, _, _) => 22,
        Node::Binary(Binary::Tuple, _, _) => 23,
        Node::Unary(Unary::Times(count), _) => 24 + u64::from(*count),
    }
}

/// The case is read as one number. The ids of the parts are read before a text: behind one they would be read byte by byte.
impl Hash for Node {
    ghost use Rattle.lalrpop_norm_nodes.specs.NodeWrites.{node_writes, same_writes};

    ghost hash_input = { node_writes };

    ghost respects_eq = { same_writes };

    fn hash<H: Hasher>(&self, state: &mut H) {
        state.write_u64(case_of(self));
        match self {
            Node::Leaf(_) | Node::Terminal(TerminalString::Error) => {}
            Node::NamedLeaf(_, text)
            | Node::Terminal(TerminalString::Bare(text))
            | Node::Terminal(TerminalString::Literal(TerminalLiteral::Quoted(text)))
            | Node::Terminal(TerminalString::Literal(TerminalLiteral::Regex(text))) => {
                text.hash(state)
            }
            Node::Unary(_, part) => state.write_usize(*part),
            Node::NamedUnary(_, text, part) => {
                state.write_usize(*part);
                text.hash(state);
            }
            Node::Binary(_, first, second) => {
                state.write_usize(*first);
                state.write_usize(*second);
            }
        }
    }
}

/// The nodes in the order of their ids, each with its text if it is desugared.
#[derive(Drop)]
pub struct Nodes {
    pub(crate) rows: IndexMap<Node, Option<Atom>, Seeded>,
}

impl Nodes {
    /// No nodes yet, to be found by these hashes, and room for that many.
    pub(crate) fn with_room(
        alloc: Global,
        hash_builder: Seeded,
        count: usize,
    ) -> Result<Nodes, NoMemory>
        ensures nodes { IfOk result AreNodes }
        ensures wholes { IfOk result (λ n. wholes n ≡ []) }
        ensures texts { IfOk result (λ n. texts_of n ≡ []) }
    {
        let rows = IndexMap::with_capacity_and_hasher(alloc, count, hash_builder)?;
        Ok(Nodes { rows })
    }

    /// The id of a node, if it has one.
    pub(crate) fn find(&self, node: &Node) -> Option<usize>
        requires nodes { AreNodes self.now }
        requires fits { Fits (wholes self.now) node.now }
        ensures found { IfSome result (λ i. StandsFor (wholes self.now) i (built (wholes self.now) node.now)) }
        ensures new { IfNone result (IsNew (wholes self.now) (built (wholes self.now) node.now)) }
    {
        self.rows.get_index_of(node)
    }

    /// The id of a node that is not desugared: a new one is added last, without a text.
    pub(crate) fn enter(&mut self, node: Node) -> Result<usize, NoMemory>
        requires nodes { AreNodes self.old }
        requires texts { texts_of self.old ≡ map own_text_in (wholes self.old) }
        requires fits { Fits (wholes self.old) node }
        requires plain { own_text_in (built (wholes self.old) node) ≡ None }
        ensures nodes { OnOk result (AreNodes self.new) }
        ensures entered { OnOk result (EntersPlain self.old self.new (built (wholes self.old) node)) }
        ensures number { IfOk result (λ i. StandsFor (wholes self.new) i (built (wholes self.old) node)) }
    {
        // A node that is there has no text either: its row stays as it is.
        let (number, _) = self.rows.insert_full(node, None)?;
        Ok(number)
    }

    /// Adds a new node last, with its text if it is desugared, and answers its id.
    pub(crate) fn put(&mut self, node: Node, text: Option<Atom>) -> Result<usize, NoMemory>
        requires nodes { AreNodes self.old }
        requires fits { Fits (wholes self.old) node }
        requires new { IsNew (wholes self.old) (built (wholes self.old) node) }
        ensures nodes { OnOk result (AreNodes self.new) }
        ensures wholes { OnOk result (wholes self.new ≡ wholes self.old ++ built (wholes self.old) node ∷ []) }
        ensures number { IfOk result (λ i. StandsFor (wholes self.new) i (built (wholes self.old) node)) }
        ensures texts { OnOk result (texts_of self.new ≡ texts_of self.old ++ text ∷ []) }
    {
        let number = self.rows.len();
        self.rows.insert(node, text)?;
        Ok(number)
    }
}
