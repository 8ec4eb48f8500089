//! What items and grammars are made of and asked for.
ghost use Rattle.std.specs.Prelude.{◌≡◌, [], ◌∷◌, ◌++◌, None, option_map, IfOk, IfErr};
ghost use Rattle.lalrpop_norm_tree.specs.Accessors.{first_of, match_item_span, is_public, is_macro, is_macro_item, rule_of, match_token_of};
ghost use Rattle.lalrpop_norm_tree.specs.Accessors.{extern_token_of, intern_token_of, enum_token_of, type_named};
ghost use Rattle.lalrpop_norm_tree.specs.Items.{associated_type_view, enum_token_view, extern_token_view, grammar_view, intern_token_view};
ghost use Rattle.lalrpop_norm_tree.specs.Items.{item_view, match_contents_view, match_token_view, rule_item, rule_view, visibility_view};

use super::{
    AssociatedType, EnumToken, ExternToken, Grammar, GrammarItem, InternToken, MatchContents,
    MatchItem, MatchToken, NonterminalData, Visibility,
};
use lalrpop_norm_tree_parts::names::Span;
use shared_text::NoMemory;
use std::alloc::Global;

impl MatchToken {
    /// A match block of one group. The only error is a failed allocation.
    pub fn new(alloc: Global, contents: MatchContents, span: Span) -> Result<MatchToken, NoMemory>
        ensures contents { IfOk result (λ m. (match_token_view m).contents ≡ match_contents_view contents ∷ []) }
        ensures span { IfOk result (λ m. m.span ≡ span) }
    {
        let contents = vec![in alloc; contents]?;
        Ok(MatchToken { contents, span })
    }

    /// The block with one more group at its end, at the same place. The only error is a failed allocation.
    pub fn add(self, _alloc: Global, contents: MatchContents) -> Result<MatchToken, NoMemory>
        ensures contents { IfOk result (λ m. (match_token_view m).contents
            ≡ (match_token_view self).contents ++ match_contents_view contents ∷ []) }
        ensures span { IfOk result (λ m. m.span ≡ self.span) }
    {
        let MatchToken {
            contents: mut groups,
            span,
        } = self;
        groups.push(contents)?;
        Ok(MatchToken {
            contents: groups,
            span,
        })
    }
}

impl MatchItem {
    /// The span of the item.
    pub fn span(&self) -> Span
        ensures { result ≡ match_item_span self.now }
    {
        match self {
            MatchItem::CatchAll(span) => *span,
            MatchItem::Unmapped(_, span) => *span,
            MatchItem::Mapped(_, _, span) => *span,
        }
    }
}

impl Visibility {
    /// Whether users of the parser see the rule.
    pub fn is_pub(&self) -> bool
        ensures { result ≡ is_public (visibility_view self.now) }
    {
        match self {
            Visibility::Pub(_) => true,
            Visibility::PubIn(_) => true,
            Visibility::Priv => false,
        }
    }
}

impl NonterminalData {
    /// Whether the rule is a macro: it has arguments.
    pub fn is_macro_def(&self) -> bool
        ensures { result ≡ is_macro (rule_view self.now) }
    {
        !self.args.is_empty()
    }
}

impl GrammarItem {
    /// Whether the item is a macro.
    pub fn is_macro_def(&self) -> bool
        ensures { result ≡ is_macro_item (item_view self.now) }
    {
        match self {
            GrammarItem::Nonterminal(rule) => rule.is_macro_def(),
            GrammarItem::MatchToken(_)
            | GrammarItem::ExternToken(_)
            | GrammarItem::InternToken(_)
            | GrammarItem::Use(_) => false,
        }
    }

    /// The rule or macro, if the item is one.
    pub fn as_nonterminal(&self) -> Option<&NonterminalData>
        ensures { option_map (λ r. rule_view r.now) result ≡ rule_of (item_view self.now) }
    {
        match self {
            GrammarItem::Nonterminal(rule) => Some(rule),
            GrammarItem::MatchToken(_)
            | GrammarItem::ExternToken(_)
            | GrammarItem::InternToken(_)
            | GrammarItem::Use(_) => None,
        }
    }

    /// The rule or macro, if the item is one; else the item as it is.
    pub fn into_nonterminal(self) -> Result<NonterminalData, GrammarItem>
        ensures rule { IfOk result (λ r. item_view self ≡ rule_item (rule_view r)) }
        ensures other { IfErr result (λ i. (item_view i ≡ item_view self) × (rule_of (item_view self) ≡ None)) }
    {
        match self {
            GrammarItem::Nonterminal(rule) => Ok(rule),
            GrammarItem::MatchToken(token) => Err(GrammarItem::MatchToken(token)),
            GrammarItem::ExternToken(token) => Err(GrammarItem::ExternToken(token)),
            GrammarItem::InternToken(token) => Err(GrammarItem::InternToken(token)),
            GrammarItem::Use(text) => Err(GrammarItem::Use(text)),
        }
    }

    /// The match block, if the item is one.
    pub fn as_match_token(&self) -> Option<&MatchToken>
        ensures { option_map (λ m. match_token_view m.now) result ≡ match_token_of (item_view self.now) }
    {
        match self {
            GrammarItem::MatchToken(token) => Some(token),
            GrammarItem::ExternToken(_)
            | GrammarItem::InternToken(_)
            | GrammarItem::Nonterminal(_)
            | GrammarItem::Use(_) => None,
        }
    }

    /// The extern block, if the item is one.
    pub fn as_extern_token(&self) -> Option<&ExternToken>
        ensures { option_map (λ t. extern_token_view t.now) result ≡ extern_token_of (item_view self.now) }
    {
        match self {
            GrammarItem::ExternToken(token) => Some(token),
            GrammarItem::MatchToken(_)
            | GrammarItem::InternToken(_)
            | GrammarItem::Nonterminal(_)
            | GrammarItem::Use(_) => None,
        }
    }

    /// The entries of the tokenizer, if the item holds them.
    pub fn as_intern_token(&self) -> Option<&InternToken>
        ensures { option_map (λ t. intern_token_view t.now) result ≡ intern_token_of (item_view self.now) }
    {
        match self {
            GrammarItem::InternToken(token) => Some(token),
            GrammarItem::MatchToken(_)
            | GrammarItem::ExternToken(_)
            | GrammarItem::Nonterminal(_)
            | GrammarItem::Use(_) => None,
        }
    }
}

impl ExternToken {
    /// The first associated type of that name.
    pub fn associated_type(&self, name: &str) -> Option<&AssociatedType>
        ensures { option_map (λ t. associated_type_view t.now) result
            ≡ first_of (type_named name.now) (extern_token_view self.now).associated_types }
    {
        first_type(&self.associated_types, name)
    }
}

impl Grammar {
    /// The first match block.
    pub fn match_token(&self) -> Option<&MatchToken>
        ensures { option_map (λ m. match_token_view m.now) result ≡ first_of match_token_of (grammar_view self.now).items }
    {
        first_match(&self.items)
    }

    /// The first extern block.
    pub fn extern_token(&self) -> Option<&ExternToken>
        ensures { option_map (λ t. extern_token_view t.now) result ≡ first_of extern_token_of (grammar_view self.now).items }
    {
        first_extern(&self.items)
    }

    /// The first enum of any extern block.
    pub fn enum_token(&self) -> Option<&EnumToken>
        ensures { option_map (λ e. enum_token_view e.now) result ≡ first_of enum_token_of (grammar_view self.now).items }
    {
        first_enum(&self.items)
    }

    /// The first item that holds the entries of the tokenizer.
    pub fn intern_token(&self) -> Option<&InternToken>
        ensures { option_map (λ t. intern_token_view t.now) result ≡ first_of intern_token_of (grammar_view self.now).items }
    {
        first_intern(&self.items)
    }
}

fn enum_of(item: &GrammarItem) -> Option<&EnumToken>
    ensures { option_map (λ e. enum_token_view e.now) result ≡ enum_token_of (item_view item.now) }
{
    match item {
        GrammarItem::ExternToken(token) => token.enum_token.as_ref(),
        GrammarItem::MatchToken(_)
        | GrammarItem::InternToken(_)
        | GrammarItem::Nonterminal(_)
        | GrammarItem::Use(_) => None,
    }
}

fn is_named<'a>(ty: &'a AssociatedType, name: &str) -> Option<&'a AssociatedType>
    ensures { option_map (λ t. associated_type_view t.now) result ≡ type_named name.now (associated_type_view ty.now) }
{
    if ty.type_name.as_str() == name {
        Some(ty)
    } else {
        None
    }
}

#[tactic(auto, using(crate::proofs::FirstLemmas::first_found, crate::proofs::FirstLemmas::first_missing))]
fn first_type<'a>(types: &'a [AssociatedType], name: &str) -> Option<&'a AssociatedType>
    ensures { option_map (λ t. associated_type_view t.now) result ≡ first_of (λ t. type_named name.now (associated_type_view t)) types.now }
{
    for ty in types {
        if let Some(found) = is_named(ty, name) {
            return Some(found);
        }
    }
    None
}

#[tactic(auto, using(crate::proofs::FirstLemmas::first_found, crate::proofs::FirstLemmas::first_missing))]
fn first_match(items: &[GrammarItem]) -> Option<&MatchToken>
    ensures { option_map (λ m. match_token_view m.now) result ≡ first_of (λ i. match_token_of (item_view i)) items.now }
{
    for item in items {
        if let Some(found) = item.as_match_token() {
            return Some(found);
        }
    }
    None
}

#[tactic(auto, using(crate::proofs::FirstLemmas::first_found, crate::proofs::FirstLemmas::first_missing))]
fn first_extern(items: &[GrammarItem]) -> Option<&ExternToken>
    ensures { option_map (λ t. extern_token_view t.now) result ≡ first_of (λ i. extern_token_of (item_view i)) items.now }
{
    for item in items {
        if let Some(found) = item.as_extern_token() {
            return Some(found);
        }
    }
    None
}

#[tactic(auto, using(crate::proofs::FirstLemmas::first_found, crate::proofs::FirstLemmas::first_missing))]
fn first_enum(items: &[GrammarItem]) -> Option<&EnumToken>
    ensures { option_map (λ e. enum_token_view e.now) result ≡ first_of (λ i. enum_token_of (item_view i)) items.now }
{
    for item in items {
        if let Some(found) = enum_of(item) {
            return Some(found);
        }
    }
    None
}

#[tactic(auto, using(crate::proofs::FirstLemmas::first_found, crate::proofs::FirstLemmas::first_missing))]
fn first_intern(items: &[GrammarItem]) -> Option<&InternToken>
    ensures { option_map (λ t. intern_token_view t.now) result ≡ first_of (λ i. intern_token_of (item_view i)) items.now }
{
    for item in items {
        if let Some(found) = item.as_intern_token() {
            return Some(found);
        }
    }
    None
}
