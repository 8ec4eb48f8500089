//! Names, nonterminals and terminals.
ghost use Rattle.std.specs.Prelude.{◌≡◌};

use crate::put::{Plain, Puts, put_variant};
use json::Writer;
use lalrpop_norm_repr::grammar::repr::{NonterminalString, TerminalString};
use lalrpop_norm_tree_names::names::TerminalLiteral;
use shared_text::Atom;
use std::alloc::AllocError;

impl Puts<Atom> for Plain {
    ghost use Rattle.serde_json.specs.Data.{string};

    ghost form = { string };

    fn put(out: &mut Writer, value: &Atom) -> Result<(), AllocError> {
        out.string(value.as_str())
    }
}

impl Puts<NonterminalString> for Plain {
    ghost use Rattle.lalrpop_norm_json.specs.Forms.{nonterminal_form};

    ghost form = { nonterminal_form };

    fn put(out: &mut Writer, value: &NonterminalString) -> Result<(), AllocError> {
        out.string(value.0.as_str())
    }
}

impl Puts<TerminalLiteral> for Plain {
    ghost use Rattle.lalrpop_norm_json.specs.Forms.{literal_form};

    ghost form = { literal_form };

    fn put(out: &mut Writer, value: &TerminalLiteral) -> Result<(), AllocError> {
        match value {
            TerminalLiteral::Quoted(text) => put_variant::<Atom, Plain>(out, "Quoted", text),
            TerminalLiteral::Regex(text) => put_variant::<Atom, Plain>(out, "Regex", text),
        }
    }
}

impl Puts<TerminalString> for Plain {
    ghost use Rattle.lalrpop_norm_json.specs.Forms.{terminal_form};

    ghost form = { terminal_form };

    fn put(out: &mut Writer, value: &TerminalString) -> Result<(), AllocError> {
        match value {
            TerminalString::Literal(literal) => {
                put_variant::<TerminalLiteral, Plain>(out, "Literal", literal)
            }
            TerminalString::Bare(name) => put_variant::<Atom, Plain>(out, "Bare", name),
            TerminalString::Error => out.string("Error"),
        }
    }
}
