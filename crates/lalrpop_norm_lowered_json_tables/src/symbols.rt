//! Symbols, and the numbers of actions.
ghost use Rattle.std.specs.Prelude.{◌≡◌};

use crate::put::{Plain, Puts, put_variant};
use json::Writer;
use lalrpop_norm_repr::grammar::repr::{ActionFn, NonterminalString, Symbol, TerminalString};
use std::alloc::AllocError;

impl Puts<Symbol> for Plain {
    ghost use Rattle.lalrpop_norm_lowered_json_tables.specs.TableForms.{symbol_form};

    ghost form = { symbol_form };

    fn put(out: &mut Writer, value: &Symbol) -> Result<(), AllocError> {
        match value {
            Symbol::Nonterminal(name) => {
                put_variant::<NonterminalString, Plain>(out, "Nonterminal", name)
            }
            Symbol::Terminal(terminal) => {
                put_variant::<TerminalString, Plain>(out, "Terminal", terminal)
            }
        }
    }
}

impl Puts<ActionFn> for Plain {
    ghost use Rattle.lalrpop_norm_lowered_json_tables.specs.TableForms.{action_number_form};

    ghost form = { action_number_form };

    fn put(out: &mut Writer, value: &ActionFn) -> Result<(), AllocError> {
        out.u64(value.index() as u64)
    }
}
