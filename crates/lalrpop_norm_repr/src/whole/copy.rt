//! Copies of lowered grammars.
ghost use Rattle.std.specs.Prelude.{◌≡◌, IfOk, OnOk, map, option_map, string_bytes};
ghost use Rattle.std.specs.BTreeMap.{insert_entry};
ghost use Rattle.lalrpop_norm_tree.specs.Items.{intern_token_view};
ghost use Rattle.lalrpop_norm_tree_patterns.specs.Patterns.{pattern_view};
ghost use Rattle.lalrpop_norm_tree_parts.specs.Reprs.{repr_view, lowered_where_clause_view};
ghost use Rattle.lalrpop_norm_repr.specs.Actions.{action_defn_view};
ghost use Rattle.lalrpop_norm_repr.specs.Lowered.{lowered_grammar_view, lowered_parameter_view, terminal_set_view};
ghost use Rattle.lalrpop_norm_repr.specs.Productions.{nonterminal_data_view};
ghost use Rattle.lalrpop_norm_repr.specs.Tables.{rows};

use super::{Grammar, Parameter, TerminalSet};
use crate::action::ActionFnDefn;
use crate::action::copy::copy_actions;
use crate::production::NonterminalData;
use lalrpop_norm_tree::grammar::parse_tree::{
    InternToken, NoMemory, NonterminalString, TerminalString, TypeParameter,
};
use lalrpop_norm_tree::grammar::pattern::Pattern;
use lalrpop_norm_tree::grammar::repr::{Algorithm, TypeRepr, WhereClause};
use lalrpop_norm_tree_parts::names::copy::{copy_texts, copy_type_parameters};
use std::alloc::{AllocError, Global};
use std::collections::BTreeMap;

impl Grammar {
    /// A copy. The only error is a failed allocation.
    pub fn clone(&self) -> Result<Grammar, NoMemory>
        ensures { IfOk result (λ g. lowered_grammar_view g ≡ lowered_grammar_view self.now) }
    {
        let alloc = *self.uses.allocator();
        let head = copy_head(self)?;
        let texts = copy_both_texts(self)?;
        let signature = copy_signature(alloc, self)?;
        let tokens = copy_tokens(alloc, self)?;
        let rules = copy_rules(self)?;
        let types = self.types.clone()?;
        let (prefix, algorithm) = head;
        let (uses, module_attributes) = texts;
        let (type_parameters, parameters, where_clauses) = signature;
        let (intern_token, terminals, conversions) = tokens;
        let (start_nonterminals, action_fn_defns, nonterminals) = rules;
        Ok(Grammar {
            prefix,
            algorithm,
            uses_error_recovery: self.uses_error_recovery,
            start_nonterminals,
            uses,
            type_parameters,
            parameters,
            where_clauses,
            intern_token,
            action_fn_defns,
            terminals,
            nonterminals,
            conversions,
            types,
            module_attributes,
        })
    }
}

fn copy_head(grammar: &Grammar) -> Result<(String, Algorithm), NoMemory>
    ensures prefix { IfOk result (λ h. string_bytes h.0 ≡ string_bytes grammar.now.prefix) }
    ensures algorithm { IfOk result (λ h. h.1 ≡ grammar.now.algorithm) }
{
    let prefix = grammar.prefix.clone()?;
    let algorithm = grammar.algorithm.clone()?;
    Ok((prefix, algorithm))
}

/// The texts behind `use`, and those of `#![..]`.
fn copy_both_texts(grammar: &Grammar) -> Result<(Vec<String>, Vec<String>), NoMemory>
    ensures uses { IfOk result (λ t. map string_bytes t.0.items ≡ map string_bytes grammar.now.uses.items) }
    ensures attributes { IfOk result (λ t. map string_bytes t.1.items ≡ map string_bytes grammar.now.module_attributes.items) }
{
    let uses = copy_texts(&grammar.uses)?;
    let module_attributes = copy_texts(&grammar.module_attributes)?;
    Ok((uses, module_attributes))
}

/// The type parameters, the parameters and the where clauses.
fn copy_signature(
    alloc: Global,
    grammar: &Grammar,
) -> Result<(Vec<TypeParameter>, Vec<Parameter>, Vec<WhereClause>), NoMemory>
    ensures type_parameters { IfOk result (λ s. s.0.items ≡ grammar.now.type_parameters.items) }
    ensures parameters { IfOk result (λ s. map lowered_parameter_view s.1.items ≡ map lowered_parameter_view grammar.now.parameters.items) }
    ensures clauses { IfOk result (λ s. map lowered_where_clause_view s.2.items
        ≡ map lowered_where_clause_view grammar.now.where_clauses.items) }
{
    let type_parameters = copy_type_parameters(&grammar.type_parameters)?;
    let parameters = copy_parameters(&grammar.parameters)?;
    let where_clauses = copy_clauses(alloc, &grammar.where_clauses)?;
    Ok((type_parameters, parameters, where_clauses))
}

/// A pattern for each terminal.
type Conversions = BTreeMap<TerminalString, Pattern<TypeRepr>>;

/// The tokenizer, the terminals and their patterns.
fn copy_tokens(
    alloc: Global,
    grammar: &Grammar,
) -> Result<(Option<InternToken>, TerminalSet, Conversions), NoMemory>
    ensures token { IfOk result (λ t. option_map intern_token_view t.0 ≡ option_map intern_token_view grammar.now.intern_token) }
    ensures terminals { IfOk result (λ t. terminal_set_view t.1 ≡ terminal_set_view grammar.now.terminals) }
    ensures conversions { IfOk result (λ t. rows (pattern_view repr_view) t.2 ≡ rows (pattern_view repr_view) grammar.now.conversions) }
{
    let intern_token = copy_token(&grammar.intern_token)?;
    let terminals = grammar.terminals.clone()?;
    let conversions = copy_conversions(alloc, &grammar.conversions)?;
    Ok((intern_token, terminals, conversions))
}

/// The start symbol of each public nonterminal.
type Starts = BTreeMap<NonterminalString, NonterminalString>;

/// The productions of each nonterminal.
type Nonterminals = BTreeMap<NonterminalString, NonterminalData>;

/// The start symbols, the actions and the nonterminals.
fn copy_rules(grammar: &Grammar) -> Result<(Starts, Vec<ActionFnDefn>, Nonterminals), NoMemory>
    ensures starts { IfOk result (λ r. r.0.entries ≡ grammar.now.start_nonterminals.entries) }
    ensures actions { IfOk result (λ r. map action_defn_view r.1.items ≡ map action_defn_view grammar.now.action_fn_defns.items) }
    ensures nonterminals { IfOk result (λ r. rows nonterminal_data_view r.2 ≡ rows nonterminal_data_view grammar.now.nonterminals) }
{
    let starts = copy_starts(&grammar.start_nonterminals)?;
    let actions = copy_actions(&grammar.action_fn_defns)?;
    let nonterminals = copy_nonterminals(&grammar.nonterminals)?;
    Ok((starts, actions, nonterminals))
}

fn copy_starts(
    starts: &BTreeMap<NonterminalString, NonterminalString>,
) -> Result<BTreeMap<NonterminalString, NonterminalString>, NoMemory>
    ensures { IfOk result (λ m. m.entries ≡ starts.now.entries) }
{
    let copy = starts.clone()?;
    Ok(copy)
}

#[tactic(auto, using(lalrpop_norm_tree_parts::proofs::CopyLemmas::same_views))]
fn copy_parameters(parameters: &Vec<Parameter>) -> Result<Vec<Parameter>, NoMemory>
    ensures { IfOk result (λ copies. map lowered_parameter_view copies.items ≡ map lowered_parameter_view parameters.now.items) }
{
    Ok(parameters.clone()?)
}

fn copy_clauses(alloc: Global, clauses: &[WhereClause]) -> Result<Vec<WhereClause>, NoMemory>
    ensures { IfOk result (λ copies. map lowered_where_clause_view copies.items ≡ map lowered_where_clause_view clauses.now) }
{
    let mut copies = Vec::new(alloc);
    for clause in clauses {
        copies.push(clause.clone()?)?;
    }
    Ok(copies)
}

fn copy_token(token: &Option<InternToken>) -> Result<Option<InternToken>, NoMemory>
    ensures { IfOk result (λ t. option_map intern_token_view t ≡ option_map intern_token_view token.now) }
{
    match token {
        None => Ok(None),
        Some(token) => Ok(Some(token.clone()?)),
    }
}

fn copy_nonterminals(
    nonterminals: &BTreeMap<NonterminalString, NonterminalData>,
) -> Result<BTreeMap<NonterminalString, NonterminalData>, NoMemory>
    ensures { IfOk result (λ m. rows nonterminal_data_view m ≡ rows nonterminal_data_view nonterminals.now) }
{
    let copy = nonterminals.clone()?;
    Ok(copy)
}

fn copy_conversions(
    alloc: Global,
    conversions: &BTreeMap<TerminalString, Pattern<TypeRepr>>,
) -> Result<BTreeMap<TerminalString, Pattern<TypeRepr>>, NoMemory>
    ensures { IfOk result (λ m. rows (pattern_view repr_view) m ≡ rows (pattern_view repr_view) conversions.now) }
{
    let mut copies = BTreeMap::new(alloc);
    for (terminal, pattern) in conversions {
        let terminal = terminal.clone()?;
        let pattern = copy_pattern(pattern)?;
        insert(&mut copies, terminal, pattern)?;
    }
    Ok(copies)
}

fn insert<K: Ord + Drop, V: Drop>(
    map: &mut BTreeMap<K, V>,
    key: K,
    value: V,
) -> Result<(), NoMemory>
    ensures { OnOk result (map.new.entries ≡ insert_entry K.cmp map.old.entries key value) }
{
    map.insert(key, value)?;
    Ok(())
}

fn copy_pattern(pattern: &Pattern<TypeRepr>) -> Result<Pattern<TypeRepr>, NoMemory>
    ensures { IfOk result (λ p. pattern_view repr_view p ≡ pattern_view repr_view pattern.now) }
{
    Ok(pattern.clone()?)
}

impl Clone for TerminalSet {
    ghost is_clone = { λ s t. terminal_set_view t ≡ terminal_set_view s };

    fn clone(&self) -> Result<TerminalSet, AllocError> {
        let all = copy_terminals(&self.all)?;
        let bits = copy_places(&self.bits)?;
        Ok(TerminalSet { all, bits })
    }
}

#[tactic(auto, using(std::proofs::lemmas::List::Elements::same_from_all_zip))]
fn copy_terminals(terminals: &Vec<TerminalString>) -> Result<Vec<TerminalString>, AllocError>
    ensures { IfOk result (λ copies. copies.items ≡ terminals.now.items) }
{
    Ok(terminals.clone()?)
}

fn copy_places(
    places: &BTreeMap<TerminalString, usize>,
) -> Result<BTreeMap<TerminalString, usize>, AllocError>
    ensures { IfOk result (λ m. m.entries ≡ places.now.entries) }
{
    let copy = places.clone()?;
    Ok(copy)
}
