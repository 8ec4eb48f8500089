//! A grammar and its items.
ghost use Rattle.std.specs.Prelude.{Some};
ghost use Rattle.lalrpop_norm_tree.specs.SymbolTexts.{mapping_text};

mod accessors;
pub(crate) mod copy;
mod copy_grammar;
mod show;

use crate::symbol::ExprSymbol;
use crate::types::{Parameter, TypeRef};
use lalrpop_norm_tree_parts::attribute::Attribute;
use lalrpop_norm_tree_parts::bound::WhereClause;
use lalrpop_norm_tree_parts::names::{
    NonterminalString, Span, TerminalLiteral, TerminalString, TypeParameter,
};
use lalrpop_norm_tree_parts::path::Path;
use lalrpop_norm_tree_patterns::pattern::Pattern;
use shared_text::Atom;
use std::fmt;

/// A written grammar.
#[derive(Debug, PartialEq, Eq)]
pub struct Grammar {
    /// Begins the names of start symbols, of the values in action code, and of the crate that the parser uses.
    pub prefix: String,
    /// The span of the grammar; a fault of the whole grammar has this span.
    pub span: Span,
    /// The lifetimes and types of `grammar<'a, T>`.
    pub type_parameters: Vec<TypeParameter>,
    /// The parameters of the parser.
    pub parameters: Vec<Parameter>,
    /// What is asked of the type parameters.
    pub where_clauses: Vec<WhereClause<TypeRef>>,
    /// In the order of the text.
    pub items: Vec<GrammarItem>,
    /// The attributes of the word `grammar`.
    pub attributes: Vec<Attribute>,
    /// The texts of `#![..]`.
    pub module_attributes: Vec<String>,
}

/// An item of a grammar.
#[derive(Debug, PartialEq, Eq)]
pub enum GrammarItem {
    /// `match { .. }`.
    MatchToken(MatchToken),
    /// `extern { .. }`.
    ExternToken(ExternToken),
    /// A tokenizer that a pass made.
    InternToken(InternToken),
    /// A rule or a macro.
    Nonterminal(NonterminalData),
    /// `use a::b;`: the text behind `use`.
    Use(String),
}

/// A match block: its groups, the first one with the highest precedence.
#[derive(Debug, PartialEq, Eq)]
pub struct MatchToken {
    /// Its groups, in the order of the text.
    pub contents: Vec<MatchContents>,
    /// The span of the block.
    pub span: Span,
}

/// A group of a match block.
#[derive(Debug, PartialEq, Eq)]
pub struct MatchContents {
    /// In the order of the text.
    pub items: Vec<MatchItem>,
}

/// An item of a match block, with its span.
#[derive(Clone, Debug, PartialEq, Eq)]
pub enum MatchItem {
    /// `_`: every literal that the grammar uses and the block does not name.
    CatchAll(Span),
    /// A literal that stands for itself.
    Unmapped(MatchSymbol, Span),
    /// A literal and what it makes.
    Mapped(MatchSymbol, MatchMapping, Span),
}

/// The literal of a match item.
pub type MatchSymbol = TerminalLiteral;

/// What a match item makes of its literal.
#[derive(Clone, PartialEq, Eq, PartialOrd, Ord)]
pub enum MatchMapping {
    /// The terminal that its tokens are.
    Terminal(TerminalString),
    /// `{ }`: the tokenizer drops it.
    Skip,
}

/// What the passes make where no extern enum names the tokens: the entries of the tokenizer in rising precedence, and
/// its automaton. Refused where it is written (F21).
#[derive(Debug, PartialEq, Eq)]
pub struct InternToken {
    /// In rising order.
    pub match_entries: Vec<MatchEntry>,
    /// What finds the longest match.
    pub dfa: Dfa,
}

/// The automaton of a tokenizer, as its lexer made it. No pass looks into it.
#[derive(Debug, PartialEq, Eq)]
pub struct Dfa {
    /// As the lexer made it.
    pub code: Vec<u32>,
}

/// An entry of the tokenizer. Entries are ordered by precedence, then literal, then user name.
#[derive(Clone, Debug, PartialEq, Eq, PartialOrd, Ord)]
pub struct MatchEntry {
    /// A greater one wins over a smaller one.
    pub precedence: usize,
    /// What it matches.
    pub match_literal: TerminalLiteral,
    /// What its tokens are.
    pub user_name: MatchMapping,
}

/// An extern block.
#[derive(Debug, PartialEq, Eq)]
pub struct ExternToken {
    /// The span of the block.
    pub span: Span,
    /// In the order of the text.
    pub associated_types: Vec<AssociatedType>,
    /// The enum of the tokens, if it has one.
    pub enum_token: Option<EnumToken>,
}

/// `type Location = ..` or `type Error = ..`.
#[derive(Debug, PartialEq, Eq)]
pub struct AssociatedType {
    /// The span of its name.
    pub type_span: Span,
    /// Its name.
    pub type_name: Atom,
    /// The type that it is.
    pub type_ref: TypeRef,
}

/// The enum of the tokens.
#[derive(Debug, PartialEq, Eq)]
pub struct EnumToken {
    /// The type of a token.
    pub type_name: TypeRef,
    /// The span of that type.
    pub type_span: Span,
    /// In the order of the text.
    pub conversions: Vec<Conversion>,
}

/// A terminal and the pattern of its tokens.
#[derive(Debug, PartialEq, Eq)]
pub struct Conversion {
    /// Its span.
    pub span: Span,
    /// Such as `cfg(..)`.
    pub attributes: Vec<Attribute>,
    /// The terminal.
    pub from: TerminalString,
    /// The pattern of its tokens.
    pub to: Pattern<TypeRef>,
}

/// Who may use a rule.
#[derive(Debug, PartialEq, Eq)]
pub enum Visibility {
    /// `pub`, or `pub(P)`.
    Pub(Option<Path>),
    /// `pub(in P)`.
    PubIn(Path),
    /// Nothing is written.
    Priv,
}

/// A rule, or a macro where `args` is not empty.
#[derive(Debug, PartialEq, Eq)]
pub struct NonterminalData {
    /// Who may use it; only what is public has a start symbol.
    pub visibility: Visibility,
    /// Its name.
    pub name: NonterminalString,
    /// Such as `inline` and `cfg(..)`.
    pub attributes: Vec<Attribute>,
    /// The span of its name, with the arguments of a macro.
    pub span: Span,
    /// The macro's arguments.
    pub args: Vec<NonterminalString>,
    /// The declared type of its values, if there is one.
    pub type_decl: Option<TypeRef>,
    /// In the order of the text.
    pub alternatives: Vec<Alternative>,
}

/// An alternative of a rule.
#[derive(Debug, PartialEq, Eq)]
pub struct Alternative {
    /// Its span.
    pub span: Span,
    /// Its symbols.
    pub expr: ExprSymbol,
    /// Only in macros.
    pub condition: Option<Condition>,
    /// Its code, if it has some.
    pub action: Option<ActionKind>,
    /// Such as `precedence(..)`, `assoc(..)` and `cfg(..)`.
    pub attributes: Vec<Attribute>,
}

/// The action code of an alternative.
#[derive(Debug, PartialEq, Eq)]
pub enum ActionKind {
    /// Code without its arrow.
    User(String),
    /// Code that may fail: `=>? ..`.
    Fallible(String),
    /// Made for `@L`; an error where it is written (F24).
    Lookahead,
    /// Made for `@R`; an error where it is written (F24).
    Lookbehind,
}

/// `if X == "a"`: an alternative of a macro that only some instances have.
#[derive(Clone, Debug, PartialEq, Eq)]
pub struct Condition {
    /// Its span.
    pub span: Span,
    /// The argument of the macro that is tested.
    pub lhs: NonterminalString,
    /// A text, or for `~~` and `!~` a pattern.
    pub rhs: Atom,
    /// How the two are compared.
    pub op: ConditionOp,
}

/// How a condition compares.
#[derive(Clone, Debug, PartialEq, Eq, Drop)]
pub enum ConditionOp {
    /// `==`: the same text.
    Equals,
    /// `!=`.
    NotEquals,
    /// `~~`: the pattern is found in the text.
    Match,
    /// `!~`.
    NotMatch,
}

impl fmt::Display for MatchMapping {
    ghost output = { λ m. Some (mapping_text m) };

    fn fmt<W: fmt::Write>(&self, f: &mut fmt::Formatter<W>) -> fmt::Result {
        match self {
            MatchMapping::Terminal(terminal) => fmt::Display::fmt(terminal, f),
            MatchMapping::Skip => f.write_str("{ }"),
        }
    }
}

impl fmt::Debug for MatchMapping {
    ghost debug_output = { λ m. Some (mapping_text m) };

    fn fmt<W: fmt::Write>(&self, f: &mut fmt::Formatter<W>) -> fmt::Result {
        fmt::Display::fmt(self, f)
    }
}

// ---- releases

// The drop of a derived type is proved anew in each crate in which a value of it is dropped; these are proved here.
impl Drop for MatchToken {
    fn drop(self) {
        let MatchToken {
            contents: _contents,
            span: _span,
        } = self;
    }
}

impl Drop for MatchContents {
    fn drop(self) {
        let MatchContents { items: _items } = self;
    }
}

impl Drop for MatchItem {
    fn drop(self) {
        match self {
            MatchItem::CatchAll(_span) => {}
            MatchItem::Unmapped(_symbol, _span) => {}
            MatchItem::Mapped(_symbol, _mapping, _span) => {}
        }
    }
}

impl Drop for MatchMapping {
    fn drop(self) {
        match self {
            MatchMapping::Terminal(_terminal) => {}
            MatchMapping::Skip => {}
        }
    }
}

impl Drop for InternToken {
    fn drop(self) {
        let InternToken {
            match_entries: _entries,
            dfa: _dfa,
        } = self;
    }
}

impl Drop for MatchEntry {
    fn drop(self) {
        let MatchEntry {
            precedence: _precedence,
            match_literal: _match_literal,
            user_name: _user_name,
        } = self;
    }
}

impl Drop for Dfa {
    fn drop(self) {
        let Dfa { code: _code } = self;
    }
}

impl Drop for ExternToken {
    fn drop(self) {
        let ExternToken {
            span: _span,
            associated_types: _types,
            enum_token: _tokens,
        } = self;
    }
}

impl Drop for AssociatedType {
    fn drop(self) {
        let AssociatedType {
            type_span: _type_span,
            type_name: _type_name,
            type_ref: _type_ref,
        } = self;
    }
}

impl Drop for EnumToken {
    fn drop(self) {
        let EnumToken {
            type_name: _type_name,
            type_span: _type_span,
            conversions: _conversions,
        } = self;
    }
}

impl Drop for Conversion {
    fn drop(self) {
        let Conversion {
            span: _span,
            attributes: _attributes,
            from: _from,
            to: _to,
        } = self;
    }
}

impl Drop for Visibility {
    fn drop(self) {
        match self {
            Visibility::Pub(_path) => {}
            Visibility::PubIn(_path) => {}
            Visibility::Priv => {}
        }
    }
}

impl Drop for NonterminalData {
    fn drop(self) {
        let NonterminalData {
            visibility: _visibility,
            name: _name,
            attributes: _attributes,
            span: _span,
            args: _args,
            type_decl: _type_decl,
            alternatives: _alternatives,
        } = self;
    }
}

impl Drop for Alternative {
    fn drop(self) {
        let Alternative {
            span: _span,
            expr: _expr,
            condition: _condition,
            action: _action,
            attributes: _attributes,
        } = self;
    }
}

impl Drop for ActionKind {
    fn drop(self) {
        match self {
            ActionKind::User(_code) => {}
            ActionKind::Fallible(_code) => {}
            ActionKind::Lookahead | ActionKind::Lookbehind => {}
        }
    }
}

impl Drop for Condition {
    fn drop(self) {
        let Condition {
            span: _span,
            lhs: _lhs,
            rhs: _rhs,
            op: _op,
        } = self;
    }
}

impl Drop for GrammarItem {
    fn drop(self) {
        match self {
            GrammarItem::MatchToken(_token) => {}
            GrammarItem::ExternToken(_token) => {}
            GrammarItem::InternToken(_token) => {}
            GrammarItem::Nonterminal(_rule) => {}
            GrammarItem::Use(_text) => {}
        }
    }
}

impl Drop for Grammar {
    fn drop(self) {
        let Grammar {
            prefix: _prefix,
            span: _span,
            type_parameters: _type_parameters,
            parameters: _parameters,
            where_clauses: _where_clauses,
            items: _items,
            attributes: _attributes,
            module_attributes: _module_attributes,
        } = self;
    }
}
