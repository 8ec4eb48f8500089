//! The rules of repeats, and the environment in which they are read.
ghost use Rattle.std.specs.Prelude.{◌≡◌, IfOk, map};
ghost use Rattle.lalrpop_norm_tree.specs.Symbols.{repeated, symbol_view};
ghost use Rattle.lalrpop_norm_faults.specs.Faults.{Refuses};
ghost use Rattle.lalrpop_norm_names.specs.Numbers.{IsNumbering};
ghost use Rattle.lalrpop_norm_nodes.specs.NodeParts.{repeated_kind, IsShallow};
ghost use Rattle.lalrpop_norm_nodes.specs.Tables.{wholes_in, IsNodeTable};
ghost use Rattle.lalrpop_norm_nodes.specs.Wholes.{kind_at};
ghost use Rattle.lalrpop_norm_macro_expand_rules.specs.Generated.{generated_view, IsReadable};
ghost use Rattle.lalrpop_norm_macro_expand.specs.Expansion.{unmade_repeat};
ghost use Rattle.lalrpop_norm_macro_expand.specs.Making.{placeholder_names, repeat_generated};

use lalrpop_norm_common::norm_util::names_value;
use lalrpop_norm_faults::{FaultKind, NormResult, refusal};
use lalrpop_norm_macro_expand_repeats::repeats::{placeholder_name, repeat_rule};
use lalrpop_norm_macro_expand_rules::generated::{Filling, GeneratedRule};
use lalrpop_norm_macro_expand_rules::rules::Head;
use lalrpop_norm_macro_expand_rules::shortened::{shortened, shortened_symbol};
use lalrpop_norm_names::Names;
use lalrpop_norm_nodes::given::Given;
use lalrpop_norm_nodes::parts::repeated_number;
use lalrpop_norm_nodes::table::Table;
use lalrpop_norm_tree::grammar::parse_tree::{
    Atom, NoMemory, RepeatOp, RepeatSymbol, Span, Symbol, SymbolKind,
};
use std::alloc::{AllocError, Global};
use std::mem;

/// The table with the index of the one name that stands for what is repeated. The only error is a failed allocation.
pub(super) fn numbers_of_placeholder(alloc: Global) -> Result<Names, NoMemory>
    ensures { IfOk result (IsNumbering (map (λ n. n.0) placeholder_names)) }
{
    let names = [placeholder_name(alloc)?];
    Names::of(alloc, &names)
}

fn times_message(alloc: Global, name: &Atom, symbol: &Symbol) -> Result<String, AllocError> {
    let name = shortened(alloc, name.as_str())?;
    match symbol.kind.as_bound() {
        Some((_, inner)) => {
            let named = shortened_symbol(alloc, symbol)?;
            let inner = shortened_symbol(alloc, inner)?;
            format!(in alloc;
                "the symbol repeated in `{name}` has a name: write `<{inner}>` in place of `<{named}>`, or write a rule with code for the symbol"
            )
        }
        None => format!(in alloc;
            "the symbol repeated in `{name}` has a name: leave out the name, or write a rule with code for the symbol"
        ),
    }
}

/// Looks for a named or tuple symbol under `X{n}`.
fn check_times(
    alloc: Global,
    name: &Atom,
    span: Span,
    op: RepeatOp,
    symbol: &Symbol,
) -> NormResult<()>
    ensures { Refuses result (unmade_repeat span op (symbol_view symbol.now)) }
{
    match op {
        RepeatOp::Star | RepeatOp::Plus | RepeatOp::Question => Ok(()),
        RepeatOp::Times(_) => {
            let named = names_value(symbol);
            if named {
                return Err(refusal(
                    FaultKind::NamedInTimes,
                    span,
                    times_message(alloc, name, symbol),
                ));
            }
            Ok(())
        }
    }
}

/// The rule of a repeat, which takes what is repeated.
///
/// Errors: F57 (`NamedInTimes`) if a named or tuple symbol is repeated by `X{n}`; `Memory`.
pub(super) fn repeat_of<'m>(
    alloc: Global,
    numbers: &'m Names,
    table: &Table,
    number: usize,
    head: Head,
    repeat: &mut RepeatSymbol,
) -> NormResult<GeneratedRule<'m>>
    requires numbers { IsNumbering (map (λ n. n.0) placeholder_names) numbers.now }
    requires table { IsNodeTable table.now }
    requires shallow { IsShallow (wholes_in table.now) number (repeated repeat.old.op (symbol_view repeat.old.symbol)) }
    ensures refuses { Refuses result (unmade_repeat head.span repeat.old.op (symbol_view repeat.old.symbol)) }
    ensures generated { IfOk result (λ p. generated_view (wholes_in table.now) p
        ≡ repeat_generated head.name head.span repeat.old.op
        (repeated_kind (kind_at (wholes_in table.now) number)) (symbol_view repeat.old.symbol)) }
    ensures readable { IfOk result (λ p. IsReadable (wholes_in table.now) p.filling) }
{
    check_times(alloc, &head.name, head.span, repeat.op, &repeat.symbol)?;
    let number = repeated_number(table, number);
    let nothing = Symbol::new(head.span, SymbolKind::Error);
    let symbol = mem::replace(&mut repeat.symbol, nothing);
    let rule = repeat_rule(alloc, head, repeat.op, &symbol)?;
    let given = vec![in alloc; Given { number, symbol }]?;
    let filling = Some(Filling { numbers, given });
    Ok(GeneratedRule { rule, filling })
}
