//! Desugaring, and the rounds of the worklist in which it is done.
//!
//! Round 1 reads the rules of the grammar, each later one the rules that the round before generated. To read a rule is to reach
//! the symbols in it, inner ones before outer ones, and to rewrite each that is desugared to the nonterminal of its text. Symbols
//! that are equal up to spans are desugared to one rule, where they were first reached.
ghost use Rattle.std.specs.Prelude.{◌≡◌, ◌==◌, ◌<◌, ◌+◌, ◌++◌, [], true, false, if◌then◌else◌, IfOk, OnOk, map, length, flat_map};
ghost use Rattle.std.specs.List.{list_all};
ghost use Rattle.lalrpop_norm_tree.specs.Symbols.{symbol_view};
ghost use Rattle.lalrpop_norm_tree.specs.Items.{item_view, grammar_view};
ghost use Rattle.lalrpop_norm_faults.specs.Faults.{Refuses, IsFirst};
ghost use Rattle.lalrpop_norm_conditions.specs.Conditions.{comparison};
ghost use Rattle.lalrpop_norm_names.specs.Numbers.{IsNumbering};
ghost use Rattle.lalrpop_norm_model.specs.PlainRules.{IsEnded, made_symbols, plain_grammar};
ghost use Rattle.lalrpop_norm_model.specs.Scopes.{resolved_grammar};
ghost use Rattle.lalrpop_norm_nodes.specs.NodeParts.{AreWaiting};
ghost use Rattle.lalrpop_norm_nodes.specs.Tables.{wholes_in, seen_in, IsNodeTable, IsCounted, TableMeets, refused_in};
ghost use Rattle.lalrpop_norm_nodes.specs.Waits.{LeavesWaiting};
ghost use Rattle.lalrpop_norm_macro_expand_rules.specs.Macros.{macros_in, AreByName};
ghost use Rattle.lalrpop_norm_macro_expand_rules.specs.Generated.{met_in_generated, shown_in_generated, generated_read};
ghost use Rattle.lalrpop_norm_macro_expand.specs.Counts.{AreCounts, IsLastRound};
ghost use Rattle.lalrpop_norm_macro_expand.specs.Expansion.{past_cap, expansion_faults, macro_faults};
ghost use Rattle.lalrpop_norm_macro_expand.specs.Made.{made_view, AreMade};
ghost use Rattle.lalrpop_norm_macro_expand.specs.Making.{placeholder_names, round_generated, round_unmade, round_made};
ghost use Rattle.lalrpop_norm_macro_expand.specs.Stays.{item_stays};

mod instance;
mod made_origins;
mod make;
mod repeats;
mod rule_lists;
mod stays;
pub(crate) mod traced;

use self::make::{MadeSymbol, Makers, make_rules};
use self::repeats::numbers_of_placeholder;
use self::stays::items_stay;
use lalrpop_norm_faults::{FaultKind, NormFailure, NormResult, refusal};
use lalrpop_norm_macro_expand_rules::generated::read_generated;
use lalrpop_norm_macro_expand_rules::items::read_items;
use lalrpop_norm_macro_expand_rules::macros::without_macros;
use lalrpop_norm_macro_expand_rules::names::declared_names;
use lalrpop_norm_macro_expand_rules::shortened::shortened_symbol;
use lalrpop_norm_nodes::digest::seeded_by;
use lalrpop_norm_nodes::table::{Table, Waiting};
use lalrpop_norm_resolve::resolve::resolve;
use lalrpop_norm_tree::grammar::parse_tree::{Grammar, GrammarItem, NoMemory, Symbol};
use std::alloc::{AllocError, Global};
use std::collections::HashSet;
use std::mem;

/// How much an expansion did.
#[derive(Clone, Copy, Debug, PartialEq, Eq)]
pub struct Counts {
    /// How many rules were added: one for each symbol that is desugared.
    pub instances: usize,
    /// How many rounds read rules, the round of the grammar's own rules included: up to the first that reached no new symbol.
    pub rounds: usize,
    /// How many texts were made: one for each symbol that is desugared.
    pub texts: usize,
}

fn cap_message(alloc: Global, limit: u16, last: &Symbol) -> Result<String, AllocError> {
    let last = shortened_symbol(alloc, last)?;
    format!(in alloc;
        "the expansion needs more rounds than the limit of {limit} (`--limit`): raise the limit, or, if a macro calls itself with ever larger arguments, end it; the last new symbol is `{last}`"
    )
}

/// The error for a new symbol past the cap, at the symbol reached last.
fn past_cap(alloc: Global, limit: u16, waiting: &[Waiting]) -> NormFailure
    requires { 0 < length waiting.now }
    ensures { IsFirst (past_cap (map (λ w. symbol_view w.symbol) waiting.now)) result }
{
    let last = &waiting[waiting.len() - 1].symbol;
    refusal(
        FaultKind::RecursionCap,
        last.span,
        cap_message(alloc, limit, last),
    )
}

/// Whether the worklist is empty, which ends the rounds.
///
/// Errors: F36 (`RecursionCap`) if the worklist is not empty, and no round is left.
fn is_ended(alloc: Global, limit: u16, waiting: &[Waiting], left: u16) -> NormResult<bool>
    ensures refuses { Refuses result (if left == 0 then past_cap (map (λ w. symbol_view w.symbol) waiting.now) else []) }
    ensures ended { IfOk result (λ b. b ≡ true → waiting.now ≡ []) }
    ensures goes_on { IfOk result (λ b. b ≡ false → (0 < left) × (0 < length waiting.now)) }
{
    if waiting.is_empty() {
        return Ok(true);
    }
    if left == 0 {
        return Err(past_cap(alloc, limit, waiting));
    }
    Ok(false)
}

/// For how many rounds like this one room is allocated if there is none. Items are large: to move them again and again costs more
/// than room that is not used.
const ROUNDS_OF_ROOM: usize = 4;

/// Reserves room for the rules of a round.
fn make_room(done: &mut Vec<GrammarItem>, count: usize) -> Result<(), NoMemory>
    ensures { OnOk result (done.new.items ≡ done.old.items) }
{
    if done.capacity() < done.len().saturating_add(count) {
        done.reserve(count.saturating_mul(ROUNDS_OF_ROOM))?;
    }
    Ok(())
}

/// Generates the rules of the symbols on the worklist, and reads them behind those of the rounds before.
fn read_round(
    alloc: Global,
    makers: &Makers,
    waiting: Vec<Waiting>,
    made: &mut Vec<MadeSymbol>,
    done: &mut Vec<GrammarItem>,
    table: &mut Table,
) -> NormResult<()>
    requires macros { AreByName makers.now.macros }
    requires placeholder { IsNumbering (map (λ n. n.0) placeholder_names) makers.now.placeholder }
    requires table { IsNodeTable table.old }
    requires counted { IsCounted table.old }
    requires waiting { AreWaiting (wholes_in table.old) waiting.items }
    ensures refuses { Refuses result (round_unmade (macros_in makers.now.macros) waiting.items
        ++ refused_in table.old
        (flat_map met_in_generated (round_generated (wholes_in table.old) (macros_in makers.now.macros) waiting.items))) }
    ensures meets { OnOk result (TableMeets table.old table.new
        (flat_map met_in_generated (round_generated (wholes_in table.old) (macros_in makers.now.macros) waiting.items))) }
    ensures counted { OnOk result (IsCounted table.new) }
    ensures waits { OnOk result (LeavesWaiting table.old table.new
        (flat_map shown_in_generated (round_generated (wholes_in table.old) (macros_in makers.now.macros) waiting.items))) }
    ensures value { OnOk result (map item_view done.new.items ≡ map item_view done.old.items
        ++ map generated_read (round_generated (wholes_in table.old) (macros_in makers.now.macros) waiting.items)) }
    ensures made { OnOk result (map made_view made.new.items
        ≡ map made_view made.old.items ++ round_made (macros_in makers.now.macros) waiting.items) }
{
    let first = done.len();
    make_room(done, waiting.len())?;
    let fillings = make_rules(alloc, makers, table, waiting, made, done)?;
    let mut room = 0usize;
    read_generated(alloc, &mut done[first..], fillings, table, &mut room)?;
    made.reserve(room)?;
    Ok(())
}

/// What an expansion knows at its end.
#[derive(Drop)]
struct Expanded {
    /// What `expand_resolved` answers.
    grammar: Grammar,
    /// The symbols, by their ids.
    table: Table,
    /// Those that are desugared, in the order of the rules.
    made: Vec<MadeSymbol>,
    /// How many rounds read rules.
    rounds: usize,
}

/// The number of the round behind these.
fn round_after(count: u16) -> usize
    ensures { result ≡ count + 1 }
{
    usize::from(count) + 1
}

/// How many nodes there is room for at first, for each item: many rules have a name that others use, a symbol of their own, and a
/// part of that.
const NODES_OF_AN_ITEM: usize = 3;

/// The rounds of an expansion.
fn expand_rounds(alloc: Global, grammar: Grammar, limit: u16) -> NormResult<Expanded>
    ensures refuses { Refuses result (expansion_faults comparison (grammar_view grammar) limit) }
    ensures whole { IfOk result (λ x. IsEnded comparison (grammar_view grammar) limit) }
    ensures plain { IfOk result (λ x. grammar_view x.grammar ≡ plain_grammar comparison (grammar_view grammar) limit) }
    // The symbol that each generated rule stands for, and the alternatives of a macro that it has.
    ensures made { IfOk result (λ x. AreMade (wholes_in x.table) (grammar_view grammar) limit x.made.items) }
    ensures rounds { IfOk result (λ x. IsLastRound comparison (grammar_view grammar) x.rounds) }
    ensures table { IfOk result (λ x. IsNodeTable x.table) }
    ensures counted { IfOk result (λ x. IsCounted x.table) }
    ensures seen { IfOk result (λ x. length (seen_in x.table) ≡ length (made_symbols comparison (grammar_view grammar) limit)) }
{
    let seed = seeded_by(&grammar.items);
    let names = declared_names(alloc, &grammar.items, seed)?;
    let nodes = grammar.items.len().saturating_mul(NODES_OF_AN_ITEM);
    let mut table = Table::with_room(alloc, names, seed, nodes)?;
    let mut grammar = grammar;
    let items = mem::replace(&mut grammar.items, Vec::new(alloc));
    let (others, macros) = without_macros(alloc, items)?;
    let placeholder = numbers_of_placeholder(alloc)?;
    let makers = Makers {
        macros,
        placeholder,
    };
    let mut room = 0usize;
    let mut done = read_items(alloc, others, &mut table, &mut room)?;
    let mut made = Vec::with_capacity(alloc, room)?;
    let mut left = limit;
    // The label is the loop's name in the proof, which has its invariant and its measure.
    'rounds: loop {
        let waiting = table.take_waiting(alloc);
        if is_ended(alloc, limit, &waiting, left)? {
            grammar.items = done;
            return Ok(Expanded {
                grammar,
                table,
                made,
                rounds: round_after(limit - left),
            });
        }
        read_round(alloc, &makers, waiting, &mut made, &mut done, &mut table)?;
        left -= 1;
    }
}

/// A table in which no symbol was reached, and none will be.
fn empty_table(alloc: Global) -> Result<Table, NoMemory>
    ensures table { IfOk result IsNodeTable }
    ensures counted { IfOk result IsCounted }
    ensures seen { IfOk result (λ t. seen_in t ≡ []) }
{
    let seed = seeded_by(&[]);
    Table::with_room(alloc, HashSet::with_hasher(alloc, seed), seed, 0)
}

/// Answers a grammar as it is, all of whose items stay: one round, which reaches nothing.
fn expanded_as_it_is(alloc: Global, grammar: Grammar, limit: u16) -> NormResult<Expanded>
    requires { list_all item_stays (map item_view grammar.items.items) ≡ true }
    ensures refuses { Refuses result (expansion_faults comparison (grammar_view grammar) limit) }
    ensures whole { IfOk result (λ x. IsEnded comparison (grammar_view grammar) limit) }
    ensures plain { IfOk result (λ x. grammar_view x.grammar ≡ plain_grammar comparison (grammar_view grammar) limit) }
    ensures made { IfOk result (λ x. AreMade (wholes_in x.table) (grammar_view grammar) limit x.made.items) }
    ensures rounds { IfOk result (λ x. IsLastRound comparison (grammar_view grammar) x.rounds) }
    ensures table { IfOk result (λ x. IsNodeTable x.table) }
    ensures counted { IfOk result (λ x. IsCounted x.table) }
    ensures seen { IfOk result (λ x. length (seen_in x.table) ≡ length (made_symbols comparison (grammar_view grammar) limit)) }
{
    let table = empty_table(alloc)?;
    Ok(Expanded {
        grammar,
        table,
        made: Vec::new(alloc),
        rounds: 1,
    })
}

/// Expands a grammar: in rounds, or as it is if all of its items stay, which needs no table.
fn expand(alloc: Global, grammar: Grammar, limit: u16) -> NormResult<Expanded>
    ensures refuses { Refuses result (expansion_faults comparison (grammar_view grammar) limit) }
    ensures whole { IfOk result (λ x. IsEnded comparison (grammar_view grammar) limit) }
    ensures plain { IfOk result (λ x. grammar_view x.grammar ≡ plain_grammar comparison (grammar_view grammar) limit) }
    ensures made { IfOk result (λ x. AreMade (wholes_in x.table) (grammar_view grammar) limit x.made.items) }
    ensures rounds { IfOk result (λ x. IsLastRound comparison (grammar_view grammar) x.rounds) }
    ensures table { IfOk result (λ x. IsNodeTable x.table) }
    ensures counted { IfOk result (λ x. IsCounted x.table) }
    ensures seen { IfOk result (λ x. length (seen_in x.table) ≡ length (made_symbols comparison (grammar_view grammar) limit)) }
{
    if items_stay(&grammar.items) {
        return expanded_as_it_is(alloc, grammar, limit);
    }
    expand_rounds(alloc, grammar, limit)
}

fn counted(expanded: &Expanded) -> Counts
    requires { IsCounted expanded.now.table }
    ensures instances { result.instances ≡ length expanded.now.made.items }
    ensures rounds { result.rounds ≡ expanded.now.rounds }
    ensures texts { result.texts ≡ length (seen_in expanded.now.table) }
{
    Counts {
        instances: expanded.made.len(),
        rounds: expanded.rounds,
        texts: expanded.table.text_count(),
    }
}

/// What `expand_resolved` answers, and how much was done.
fn expand_counted(alloc: Global, grammar: Grammar, limit: u16) -> NormResult<(Grammar, Counts)>
    ensures refuses { Refuses result (expansion_faults comparison (grammar_view grammar) limit) }
    ensures whole { IfOk result (λ made. IsEnded comparison (grammar_view grammar) limit) }
    ensures plain { IfOk result (λ made. grammar_view made.0 ≡ plain_grammar comparison (grammar_view grammar) limit) }
    ensures counts { IfOk result (λ made. AreCounts comparison (grammar_view grammar) limit made.1) }
{
    let expanded = expand(alloc, grammar, limit)?;
    let counts = counted(&expanded);
    Ok((expanded.grammar, counts))
}

/// Resolves the names of a grammar (`resolve`), and desugars its macro calls, groups, repeats and location symbols to rules
/// (`expand_resolved`). The grammar is consumed, also if it is rejected.
///
/// Errors: the faults of names, F25 to F32; then those of the expansion, F33 to F37 and F57; `Memory`.
pub fn expand_macros(alloc: Global, grammar: Grammar, limit: u16) -> NormResult<Grammar>
    // Ok if and only if no fault holds, else the first one is reported, unless an allocation fails.
    ensures refuses { Refuses result (macro_faults comparison (grammar_view grammar) limit) }
    // No round after the first `limit` has a new symbol.
    ensures whole { IfOk result (λ made. IsEnded comparison (resolved_grammar (grammar_view grammar)) limit) }
    ensures plain { IfOk result (λ made. grammar_view made ≡ plain_grammar comparison (resolved_grammar (grammar_view grammar)) limit) }
{
    let (made, _counts) = expand_macros_counted(alloc, grammar, limit)?;
    Ok(made)
}

/// Expands as `expand_macros` does, and counts: how many rules were added, how many rounds were read, and how many texts of
/// symbols were made.
///
/// Errors: as of `expand_macros`.
pub fn expand_macros_counted(
    alloc: Global,
    grammar: Grammar,
    limit: u16,
) -> NormResult<(Grammar, Counts)>
    // Ok if and only if no fault holds, else the first one is reported, unless an allocation fails.
    ensures refuses { Refuses result (macro_faults comparison (grammar_view grammar) limit) }
    // No round after the first `limit` has a new symbol.
    ensures whole { IfOk result (λ made. IsEnded comparison (resolved_grammar (grammar_view grammar)) limit) }
    ensures plain { IfOk result (λ made. grammar_view made.0 ≡ plain_grammar comparison (resolved_grammar (grammar_view grammar)) limit) }
    ensures counts { IfOk result (λ made. AreCounts comparison (resolved_grammar (grammar_view grammar)) limit made.1) }
{
    let resolved = resolve(alloc, grammar)?;
    expand_counted(alloc, resolved, limit)
}

/// Desugars the macro calls, groups, repeats and location symbols of a grammar whose names are resolved. The answer is the
/// expanded grammar: the items of the grammar but for its macros, and then the generated rules, round by round, each symbol that
/// is desugared rewritten to the nonterminal of its text. All else stays as it is. `limit` is the number of rounds whose new
/// symbols may be desugared. An identifier that is not resolved counts as a name. The grammar is consumed, also if it is
/// rejected.
///
/// Errors: F37 (`SharedName`) at a symbol whose text is the name of a rule or macro, or the text of another symbol that was
/// reached before and is not the same; F36 (`RecursionCap`) at the last new symbol of the round after `limit` rounds; F35
/// (`NamedInGroup`) at a group with a named or tuple symbol in it; F57 (`NamedInTimes`) at a repeat `X{n}` of one; F33
/// (`ConditionArgument`) at a condition of a called macro whose left operand is bound to no quoted literal; F34
/// (`ConditionPattern`) at one that asks for a pattern without a reading; `Memory`, also if such a pattern passes the size limit
/// of `regex`.
pub fn expand_resolved(alloc: Global, grammar: Grammar, limit: u16) -> NormResult<Grammar>
    // Ok if and only if no fault holds, else the first one is reported, unless an allocation fails.
    ensures refuses { Refuses result (expansion_faults comparison (grammar_view grammar) limit) }
    // No round after the first `limit` has a new symbol.
    ensures whole { IfOk result (λ made. IsEnded comparison (grammar_view grammar) limit) }
    ensures plain { IfOk result (λ made. grammar_view made ≡ plain_grammar comparison (grammar_view grammar) limit) }
{
    let (made, _counts) = expand_counted(alloc, grammar, limit)?;
    Ok(made)
}
