//! The rules that symbols are desugared to.
ghost use Rattle.std.specs.Prelude.{◌≡◌, ℕ, List, [], ◌∷◌, ◌++◌, Some, IfOk, IfSome, OnOk, map, option_to_list};
ghost use Rattle.lalrpop_norm_tree.specs.Symbols.{at, group, call, kind_view, parts_view, expr_view, macro_view, symbol_view};
ghost use Rattle.lalrpop_norm_tree.specs.SymbolTexts.{kind_text};
ghost use Rattle.lalrpop_norm_tree.specs.Items.{item_view, rule_item, rule_view};
ghost use Rattle.lalrpop_norm_faults.specs.Faults.{Refuses, RefusesOr, fault_if};
ghost use Rattle.lalrpop_norm_faults.specs.declared.kind.FaultKind.TheVariants.{NamedInGroup};
ghost use Rattle.lalrpop_norm_conditions.specs.Conditions.{comparison};
ghost use Rattle.lalrpop_norm_names.specs.Numbers.{IsNumbering};
ghost use Rattle.lalrpop_norm_model.specs.MadeRules.{argument_kind, macro_named, group_rule, some_name_value};
ghost use Rattle.lalrpop_norm_model.specs.Replaced.{all_replaced};
ghost use Rattle.lalrpop_norm_nodes.specs.NodeParts.{call_parts, IsShallow, IsWaiting, AreWaiting};
ghost use Rattle.lalrpop_norm_nodes.specs.Tables.{wholes_in, IsNodeTable};
ghost use Rattle.lalrpop_norm_nodes.specs.Given.{IsGiven};
ghost use Rattle.lalrpop_norm_nodes.specs.declared.given.Given.{Given};
ghost use Rattle.lalrpop_norm_nodes.specs.Wholes.{Whole, kind_at};
ghost use Rattle.lalrpop_norm_macro_expand_rules.specs.Conditions.{called_faults, instance_faults};
ghost use Rattle.lalrpop_norm_macro_expand_rules.specs.Macros.{macros_in, HasNumbers, AreByName};
ghost use Rattle.lalrpop_norm_macro_expand_rules.specs.Generated.{unread_rule, item_of, filling_of, given_numbered, whole_numbered};
ghost use Rattle.lalrpop_norm_macro_expand_rules.specs.Generated.{shown_numbered, filling_view, generated_view, IsReadable, AreReadable};
ghost use Rattle.lalrpop_norm_macro_expand.specs.Expansion.{unmade};
ghost use Rattle.lalrpop_norm_macro_expand.specs.Kept.{kept_by, kept_by_call};
ghost use Rattle.lalrpop_norm_macro_expand.specs.Made.{made_view};
ghost use Rattle.lalrpop_norm_macro_expand.specs.Making.{instance_shape, call_generated, placeholder_names, generated_of, generated_for};
ghost use Rattle.lalrpop_norm_macro_expand.specs.Making.{generated_list, round_generated, round_unmade, round_made};

use super::instance::instance_rule;
use super::repeats::repeat_of;
use lalrpop_norm_common::norm_util::has_name_value;
use lalrpop_norm_faults::{FaultKind, NormResult, refusal};
use lalrpop_norm_macro_expand_rules::generated::{Filling, GeneratedRule};
use lalrpop_norm_macro_expand_rules::groups::{group_rule, location_rule};
use lalrpop_norm_macro_expand_rules::macros::{Macros, NumberedMacro};
use lalrpop_norm_macro_expand_rules::rules::Head;
use lalrpop_norm_macro_expand_rules::shortened::{shortened, shortened_symbol};
use lalrpop_norm_names::Names;
use lalrpop_norm_nodes::given::Given;
use lalrpop_norm_nodes::parts::given_by_call;
use lalrpop_norm_nodes::table::{Table, Waiting};
use lalrpop_norm_tree::grammar::parse_tree::{
    ActionKind, Atom, ExprSymbol, GrammarItem, MacroSymbol, NoMemory, NonterminalData, Symbol,
    SymbolKind,
};
use std::alloc::{AllocError, Global};
use std::mem;

/// What each round needs to generate rules.
#[derive(Drop)]
pub(super) struct Makers {
    /// The macros.
    pub(super) macros: Macros,
    /// The table with the index of the one name that stands for what is repeated, in the rule of each repeat.
    pub(super) placeholder: Names,
}

fn group_message(alloc: Global, name: &Atom, symbols: &[Symbol]) -> Result<String, AllocError> {
    let name = shortened(alloc, name.as_str())?;
    for symbol in symbols {
        if let Some((_, inner)) = symbol.kind.as_bound() {
            let named = shortened_symbol(alloc, symbol)?;
            let inner = shortened_symbol(alloc, inner)?;
            return format!(in alloc;
                "a symbol in the group `{name}` has a name: write `<{inner}>` in place of `<{named}>`, or write a rule with code for the group"
            );
        }
    }
    format!(in alloc;
        "a symbol in the group `{name}` has a name: leave out the name, or write a rule with code for the group"
    )
}

/// The rule of a group, which takes its symbols.
fn group_of(alloc: Global, head: Head, expr: &mut ExprSymbol) -> NormResult<NonterminalData>
    requires name { head.name ≡ kind_text (group (expr_view expr.old)) }
    requires replaced { all_replaced (expr_view expr.old) ≡ expr_view expr.old }
    ensures { RefusesOr result (fault_if (some_name_value (expr_view expr.old)) (NamedInGroup, head.span))
        (λ r. rule_view r ≡ group_rule head.span (expr_view expr.old)) }
{
    if has_name_value(&expr.symbols) {
        return Err(refusal(
            FaultKind::NamedInGroup,
            head.span,
            group_message(alloc, &head.name, &expr.symbols),
        ));
    }
    let symbols = mem::replace(&mut expr.symbols, Vec::new(alloc));
    Ok(group_rule(alloc, head, symbols)?)
}

/// The rule of a call of that macro, in the environment that binds its names to these.
fn with_environment<'m>(
    called: &'m NumberedMacro,
    rule: NonterminalData,
    given: Vec<Given>,
) -> GeneratedRule<'m>
    ensures generated { (ws : List Whole) → generated_view ws result
        ≡ unread_rule (rule_view rule) (whole_numbered ws called.now.numbers given.items) (shown_numbered called.now.numbers given.items) }
    ensures readable { (ws : List Whole)
        → ((n : List ℕ) (g : Given) → given_numbered called.now.numbers given.items n ≡ Some g → IsGiven ws g)
        → IsReadable ws result.filling }
{
    let filling = Filling {
        numbers: &called.numbers,
        given,
    };
    GeneratedRule {
        rule,
        filling: Some(filling),
    }
}

/// The rule of a call of a macro with these arguments, and the indices of the macro's alternatives that it has.
///
/// Errors: at the first alternative whose condition has no value F33 (`ConditionArgument`) or F34 (`ConditionPattern`); `Memory`.
fn instance_of<'m>(
    alloc: Global,
    table: &Table,
    number: usize,
    head: Head,
    called: &'m NumberedMacro,
    arguments: Vec<Symbol>,
) -> NormResult<(GeneratedRule<'m>, Vec<usize>)>
    requires numbers { HasNumbers called.now }
    requires table { IsNodeTable table.now }
    requires shallow { IsShallow (wholes_in table.now) number (call called.now.definition.name.0 (parts_view arguments.items)) }
    ensures refuses { Refuses result (instance_faults (rule_view called.now.definition) (parts_view arguments.items)) }
    ensures generated { IfOk result (λ o. generated_view (wholes_in table.now) o.0
        ≡ unread_rule (instance_shape head.name head.span (rule_view called.now.definition) (parts_view arguments.items))
        (argument_kind called.now.definition.args.items (call_parts (kind_at (wholes_in table.now) number)))
        (argument_kind called.now.definition.args.items (parts_view arguments.items))) }
    ensures readable { IfOk result (λ o. IsReadable (wholes_in table.now) o.0.filling) }
    ensures kept { IfOk result (λ o. o.1.items
        ≡ kept_by_call comparison (Some (rule_view called.now.definition)) (parts_view arguments.items)) }
{
    let instance = instance_rule(alloc, head, called, &arguments)?;
    let given = given_by_call(alloc, table, number, arguments)?;
    let generated = with_environment(called, instance.rule, given);
    Ok((generated, instance.kept))
}

/// What a symbol is desugared to.
#[derive(Drop)]
struct Making<'m> {
    /// Its rule, if it is desugared.
    generated: Option<GeneratedRule<'m>>,
    /// Of a macro call the indices, among the macro's alternatives, of those that the rule has.
    kept: Vec<usize>,
}

/// What a symbol that calls no macro is desugared to.
fn without_call<'m>(alloc: Global, generated: Option<GeneratedRule<'m>>) -> Making<'m>
    ensures { (result.generated ≡ generated.entry) × (result.kept.items ≡ []) }
{
    Making {
        generated,
        kept: Vec::new(alloc),
    }
}

/// What a symbol is desugared to whose rule has nothing left to be read.
fn finished<'m>(alloc: Global, rule: NonterminalData) -> Making<'m>
    ensures { (result.generated ≡ Some (record { rule = rule; filling = None })) × (result.kept.items ≡ []) }
{
    let generated = GeneratedRule {
        rule,
        filling: None,
    };
    without_call(alloc, Some(generated))
}

/// The rule of a macro call, if there is a macro of that name; it takes the arguments.
fn called_of<'m>(
    alloc: Global,
    macros: &'m Macros,
    table: &Table,
    number: usize,
    head: Head,
    instance: &mut MacroSymbol,
) -> NormResult<Making<'m>>
    requires macros { AreByName macros.now }
    requires table { IsNodeTable table.now }
    requires shallow { IsShallow (wholes_in table.now) number (call (macro_view instance.old).0 (macro_view instance.old).1) }
    ensures refuses { Refuses result
        (called_faults (macro_named (macros_in macros.now) (macro_view instance.old).0) (macro_view instance.old).1) }
    ensures generated { IfOk result (λ m. generated_list (wholes_in table.now) m.generated
        ≡ call_generated head.name head.span (macro_named (macros_in macros.now) (macro_view instance.old).0)
        (call_parts (kind_at (wholes_in table.now) number)) (macro_view instance.old).1) }
    ensures readable { IfOk result (λ m. IfSome m.generated (λ p. IsReadable (wholes_in table.now) p.filling)) }
    ensures kept { IfOk result (λ m. m.kept.items
        ≡ kept_by_call comparison (macro_named (macros_in macros.now) (macro_view instance.old).0) (macro_view instance.old).1) }
{
    match macros.find(&instance.name) {
        Some(called) => {
            let arguments = mem::replace(&mut instance.args, Vec::new(alloc));
            let (generated, kept) = instance_of(alloc, table, number, head, called, arguments)?;
            Ok(Making {
                generated: Some(generated),
                kept,
            })
        }
        None => Ok(without_call(alloc, None)),
    }
}

/// The rule that a symbol is desugared to, if it is desugared; it takes the symbol's parts.
///
/// Errors: F35 (`NamedInGroup`) at a group with a named or tuple symbol in it; F57 (`NamedInTimes`) at a repeat `X{n}` of one; at
/// a condition of a macro that is called F33 (`ConditionArgument`) or F34 (`ConditionPattern`); `Memory`.
fn rule_of<'m>(
    alloc: Global,
    makers: &'m Makers,
    table: &Table,
    number: usize,
    head: Head,
    kind: &mut SymbolKind,
) -> NormResult<Making<'m>>
    requires macros { AreByName makers.now.macros }
    requires placeholder { IsNumbering (map (λ n. n.0) placeholder_names) makers.now.placeholder }
    requires table { IsNodeTable table.now }
    requires shallow { IsShallow (wholes_in table.now) number (kind_view kind.old) }
    requires name { head.name ≡ kind_text (kind_view kind.old) }
    ensures refuses { Refuses result (unmade (macros_in makers.now.macros) (at head.span (kind_view kind.old))) }
    ensures generated { IfOk result (λ m. generated_list (wholes_in table.now) m.generated
        ≡ generated_of (macros_in makers.now.macros) (kind_at (wholes_in table.now) number) (at head.span (kind_view kind.old))) }
    ensures readable { IfOk result (λ m. IfSome m.generated (λ p. IsReadable (wholes_in table.now) p.filling)) }
    ensures kept { IfOk result (λ m. m.kept.items
        ≡ kept_by comparison (macros_in makers.now.macros) (at head.span (kind_view kind.old))) }
{
    match kind {
        SymbolKind::Expr(expr) => {
            let rule = group_of(alloc, head, expr)?;
            Ok(finished(alloc, rule))
        }
        SymbolKind::Macro(instance) => {
            called_of(alloc, &makers.macros, table, number, head, instance)
        }
        SymbolKind::Repeat(repeat) => {
            let generated = repeat_of(alloc, &makers.placeholder, table, number, head, repeat)?;
            Ok(without_call(alloc, Some(generated)))
        }
        SymbolKind::Lookahead => {
            let rule = location_rule(alloc, head, ActionKind::Lookahead)?;
            Ok(finished(alloc, rule))
        }
        SymbolKind::Lookbehind => {
            let rule = location_rule(alloc, head, ActionKind::Lookbehind)?;
            Ok(finished(alloc, rule))
        }
        _ => Ok(without_call(alloc, None)),
    }
}

/// The rule of a symbol on the worklist, if it is desugared.
fn generated_rule<'m>(
    alloc: Global,
    makers: &'m Makers,
    table: &Table,
    waiting: Waiting,
) -> NormResult<Making<'m>>
    requires macros { AreByName makers.now.macros }
    requires placeholder { IsNumbering (map (λ n. n.0) placeholder_names) makers.now.placeholder }
    requires table { IsNodeTable table.now }
    requires waiting { IsWaiting (wholes_in table.now) waiting }
    ensures refuses { Refuses result (unmade (macros_in makers.now.macros) (symbol_view waiting.symbol)) }
    ensures generated { IfOk result (λ m. generated_list (wholes_in table.now) m.generated
        ≡ generated_for (wholes_in table.now) (macros_in makers.now.macros) waiting) }
    ensures readable { IfOk result (λ m. IfSome m.generated (λ p. IsReadable (wholes_in table.now) p.filling)) }
    ensures kept { IfOk result (λ m. m.kept.items ≡ kept_by comparison (macros_in makers.now.macros) (symbol_view waiting.symbol)) }
{
    let Some(name) = table.text_of(waiting.number) else {
        return Ok(without_call(alloc, None));
    };
    let head = Head {
        name: name.clone()?,
        span: waiting.symbol.span,
    };
    let mut symbol = waiting.symbol;
    rule_of(alloc, makers, table, waiting.number, head, &mut symbol.kind)
}

/// A symbol that is desugared.
#[derive(Drop)]
pub(super) struct MadeSymbol {
    /// Its id.
    pub(super) number: usize,
    /// Of a macro call the indices, among the macro's alternatives, of those that the rule has.
    pub(super) kept: Vec<usize>,
}

/// Adds the symbol of that id, and the rule that it is desugared to, if it is desugared.
fn add_rule<'m>(
    number: usize,
    making: Making<'m>,
    made: &mut Vec<MadeSymbol>,
    done: &mut Vec<GrammarItem>,
    fillings: &mut Vec<Option<Filling<'m>>>,
) -> Result<(), NoMemory>
    ensures made { OnOk result (map made_view made.new.items ≡ map made_view made.old.items ++ (number, making.entry.kept.items) ∷ []) }
    ensures rule { OnOk result (map item_view done.new.items
        ≡ map item_view done.old.items ++ map (λ p. rule_item (rule_view p.rule)) (option_to_list making.entry.generated)) }
    ensures filling { OnOk result (fillings.new.items
        ≡ fillings.old.items ++ map (λ p. p.filling) (option_to_list making.entry.generated)) }
{
    let Making { generated, kept } = making;
    made.push(MadeSymbol { number, kept })?;
    match generated {
        Some(generated) => {
            done.push(GrammarItem::Nonterminal(generated.rule))?;
            fillings.push(generated.filling)?;
            Ok(())
        }
        None => Ok(()),
    }
}

/// Generates the rules of the symbols on the worklist, that of the last one first, behind those of the rounds before, and answers
/// the environment of each; the symbols are added, in the same order, behind those that were desugared before.
pub(super) fn make_rules<'m>(
    alloc: Global,
    makers: &'m Makers,
    table: &Table,
    waiting: Vec<Waiting>,
    made: &mut Vec<MadeSymbol>,
    done: &mut Vec<GrammarItem>,
) -> NormResult<Vec<Option<Filling<'m>>>>
    requires macros { AreByName makers.now.macros }
    requires placeholder { IsNumbering (map (λ n. n.0) placeholder_names) makers.now.placeholder }
    requires table { IsNodeTable table.now }
    requires waiting { AreWaiting (wholes_in table.now) waiting.items }
    ensures refuses { Refuses result (round_unmade (macros_in makers.now.macros) waiting.items) }
    ensures rules { OnOk result (map item_view done.new.items
        ≡ map item_view done.old.items ++ map item_of (round_generated (wholes_in table.now) (macros_in makers.now.macros) waiting.items)) }
    ensures fillings { IfOk result (λ fs. map (filling_view (wholes_in table.now)) fs.items
        ≡ map filling_of (round_generated (wholes_in table.now) (macros_in makers.now.macros) waiting.items)) }
    ensures readable { IfOk result (λ fs. AreReadable (wholes_in table.now) fs.items) }
    ensures made { OnOk result (map made_view made.new.items
        ≡ map made_view made.old.items ++ round_made (macros_in makers.now.macros) waiting.items) }
{
    let mut waiting = waiting;
    waiting.reverse();
    let mut fillings = Vec::with_capacity(alloc, waiting.len())?;
    for symbol in waiting {
        let number = symbol.number;
        let making = generated_rule(alloc, makers, table, symbol)?;
        add_rule(number, making, made, done, &mut fillings)?;
    }
    Ok(fillings)
}
