//! Names and terminals.
ghost use Rattle.std.specs.Prelude.{◌≡◌, ◌≤◌, ◌∷◌, length, None, IfOk, OnOk, IsErrOf};
ghost use Rattle.json.specs.Reads.{token_of};
ghost use Rattle.json_records.specs.Reading.{data_of, IsRead};

use crate::line::Line;
use json::{Reader, Token};
use json_records::{ReadError, Reads, Variant, pass, read_variant, text};
use lalrpop_norm_tree_names::names::{NonterminalString, TerminalLiteral, TerminalString};
use shared_text::Atom;
use std::alloc::Global;

impl Reads<Atom> for Line {
    ghost use Rattle.serde_json.specs.Data.{string};
    ghost use Rattle.json_records.specs.Reading.{is_text};

    ghost form = { string };

    ghost can = { is_text };

    fn read<'a>(
        alloc: Global,
        first: Token<'a>,
        reader: &mut Reader<'a>,
        depth: usize,
    ) -> Result<Option<Atom>, ReadError> {
        let Some(text) = text(first, reader, depth)? else {
            return Ok(None);
        };
        match Atom::new(alloc, text) {
            Ok(atom) => Ok(Some(atom)),
            Err(_) => Err(ReadError::Memory),
        }
    }
}

impl Reads<NonterminalString> for Line {
    ghost use Rattle.serde_json.specs.Data.{string};
    ghost use Rattle.json_records.specs.Reading.{is_text};

    ghost form = { λ n. string n.0 };

    ghost can = { is_text };

    fn read<'a>(
        alloc: Global,
        first: Token<'a>,
        reader: &mut Reader<'a>,
        depth: usize,
    ) -> Result<Option<NonterminalString>, ReadError> {
        match <Line as Reads<Atom>>::read(alloc, first, reader, depth)? {
            Some(name) => Ok(Some(NonterminalString(name))),
            None => Ok(None),
        }
    }
}

impl Variant<TerminalLiteral> for Line {
    ghost use Rattle.lalrpop_norm_json.specs.Forms.{literal_form};
    ghost use Rattle.lalrpop_norm_json.specs.Shapes as shape;
    ghost use Rattle.lalrpop_norm_json.specs.Shapes.{is};
    ghost use Rattle.lalrpop_norm_json.specs.Laws.{no_variant};

    ghost form = { literal_form };

    ghost can = { is shape.literal };

    ghost law = { λ d other. no_variant _ _ d other };

    fn bare(_name: &str) -> Option<TerminalLiteral> {
        None
    }

    fn held<'a>(
        alloc: Global,
        name: &str,
        first: Token<'a>,
        reader: &mut Reader<'a>,
        depth: usize,
    ) -> Result<Option<TerminalLiteral>, ReadError> {
        match name {
            "Quoted" => match <Line as Reads<Atom>>::read(alloc, first, reader, depth)? {
                Some(read) => Ok(Some(TerminalLiteral::Quoted(read))),
                None => Ok(None),
            },
            "Regex" => match <Line as Reads<Atom>>::read(alloc, first, reader, depth)? {
                Some(read) => Ok(Some(TerminalLiteral::Regex(read))),
                None => Ok(None),
            },
            _ => {
                pass(first, reader, depth)?;
                Ok(None)
            }
        }
    }
}

impl Variant<TerminalString> for Line {
    ghost use Rattle.lalrpop_norm_model.specs.Reading.{terminal_of};
    ghost use Rattle.lalrpop_norm_json.specs.Shapes as shape;
    ghost use Rattle.lalrpop_norm_json.specs.Shapes.{is};
    ghost use Rattle.lalrpop_norm_json.specs.Laws.{no_variant};
    ghost use Rattle.lexplain_lines.specs.LineForms.{leaf_terminal_form};

    ghost form = { λ a. leaf_terminal_form (terminal_of a) };

    ghost can = { is shape.terminal };

    ghost law = { λ d other. no_variant _ _ d other };

    fn bare(name: &str) -> Option<TerminalString> {
        match name {
            "Error" => Some(TerminalString::Error),
            _ => None,
        }
    }

    fn held<'a>(
        alloc: Global,
        name: &str,
        first: Token<'a>,
        reader: &mut Reader<'a>,
        depth: usize,
    ) -> Result<Option<TerminalString>, ReadError> {
        match name {
            "Literal" => match read_variant::<TerminalLiteral, Line>(alloc, first, reader, depth)? {
                Some(read) => Ok(Some(TerminalString::Literal(read))),
                None => Ok(None),
            },
            "Bare" => match <Line as Reads<Atom>>::read(alloc, first, reader, depth)? {
                Some(read) => Ok(Some(TerminalString::Bare(read))),
                None => Ok(None),
            },
            _ => {
                pass(first, reader, depth)?;
                Ok(None)
            }
        }
    }
}
