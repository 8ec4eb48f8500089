//! The terminals of a grammar, with their bits.
ghost use Rattle.std.specs.Prelude.{◌≡◌};

use crate::put::{Plain, Puts, put_list_field, put_rows_field};
use json::Writer;
use lalrpop_norm_repr::grammar::repr::{TerminalSet, TerminalString};
use std::alloc::AllocError;

impl Puts<TerminalSet> for Plain {
    ghost use Rattle.lalrpop_norm_repr.specs.Lowered.{terminal_set_view};
    ghost use Rattle.lalrpop_norm_lowered_json_tables.specs.TableForms.{terminals_form};

    ghost form = { λ s. terminals_form (terminal_set_view s) };

    fn put(out: &mut Writer, value: &TerminalSet) -> Result<(), AllocError> {
        out.begin_object()?;
        put_list_field::<TerminalString, Plain>(out, "all", &value.all)?;
        put_rows_field::<TerminalString, usize, Plain, Plain>(out, "bits", &value.bits)?;
        out.end_object()
    }
}
