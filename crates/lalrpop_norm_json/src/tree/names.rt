//! Spans, names, terminals and paths.

use super::Tree;
use json::{Reader, Token};
use json_records::{
    And, End, ReadError, Reads, Variant, pass, read_record, read_two_naturals, read_variant, text,
};
use lalrpop_norm_tree::grammar::parse_tree::{
    Atom, Lifetime, NonterminalString, Path, Span, TerminalLiteral, TerminalString, TypeParameter,
};
use std::alloc::Global;

impl Reads<Atom> for Tree {
    ghost use Rattle.serde_json.specs.Data.{string};
    ghost use Rattle.json_records.specs.Reading.{is_text};

    ghost form = { string };

    ghost can = { is_text };

    fn read<'a>(
        alloc: Global,
        first: Token<'a>,
        reader: &mut Reader<'a>,
        depth: usize,
    ) -> Result<Option<Atom>, ReadError> {
        let Some(text) = text(first, reader, depth)? else {
            return Ok(None);
        };
        match Atom::new(alloc, text) {
            Ok(atom) => Ok(Some(atom)),
            Err(_) => Err(ReadError::Memory),
        }
    }
}

impl Reads<NonterminalString> for Tree {
    ghost use Rattle.lalrpop_norm_json.specs.Forms.{nonterminal_form};
    ghost use Rattle.json_records.specs.Reading.{is_text};

    ghost form = { nonterminal_form };

    ghost can = { is_text };

    fn read<'a>(
        alloc: Global,
        first: Token<'a>,
        reader: &mut Reader<'a>,
        depth: usize,
    ) -> Result<Option<NonterminalString>, ReadError> {
        match <Tree as Reads<Atom>>::read(alloc, first, reader, depth)? {
            Some(name) => Ok(Some(NonterminalString(name))),
            None => Ok(None),
        }
    }
}

impl Reads<Lifetime> for Tree {
    ghost use Rattle.lalrpop_norm_json.specs.Forms.{lifetime_form};
    ghost use Rattle.json_records.specs.Reading.{is_text};

    ghost form = { lifetime_form };

    ghost can = { is_text };

    fn read<'a>(
        alloc: Global,
        first: Token<'a>,
        reader: &mut Reader<'a>,
        depth: usize,
    ) -> Result<Option<Lifetime>, ReadError> {
        match <Tree as Reads<Atom>>::read(alloc, first, reader, depth)? {
            Some(name) => Ok(Some(Lifetime(name))),
            None => Ok(None),
        }
    }
}

impl Reads<Span> for Tree {
    ghost use Rattle.lalrpop_norm_json.specs.Forms.{span_form};
    ghost use Rattle.lalrpop_norm_json.specs.Shapes as shape;
    ghost use Rattle.lalrpop_norm_json.specs.Shapes.{is};

    ghost form = { span_form };

    ghost can = { is shape.span };

    fn read<'a>(
        _alloc: Global,
        first: Token<'a>,
        reader: &mut Reader<'a>,
        depth: usize,
    ) -> Result<Option<Span>, ReadError> {
        match read_two_naturals(first, reader, depth)? {
            Some((from, to)) => Ok(Some(Span(from as usize, to as usize))),
            None => Ok(None),
        }
    }
}

impl Reads<Path> for Tree {
    ghost use Rattle.lalrpop_norm_tree_parts.specs.Paths.{path_view};
    ghost use Rattle.lalrpop_norm_json.specs.Forms.{path_form};
    ghost use Rattle.lalrpop_norm_json.specs.Shapes as shape;
    ghost use Rattle.lalrpop_norm_json.specs.Shapes.{is};

    ghost form = { λ p. path_form (path_view p) };

    ghost can = { is shape.path };

    fn read<'a>(
        alloc: Global,
        first: Token<'a>,
        reader: &mut Reader<'a>,
        depth: usize,
    ) -> Result<Option<Path>, ReadError> {
        match read_record::<Tree, And<bool, And<Vec<Atom>, End>>>(
            alloc,
            &["absolute", "ids"],
            first,
            reader,
            depth,
        )? {
            Some((absolute, (ids, ()))) => Ok(Some(Path { absolute, ids })),
            None => Ok(None),
        }
    }
}

impl Variant<TerminalLiteral> for Tree {
    ghost use Rattle.lalrpop_norm_json.specs.Forms.{literal_form};
    ghost use Rattle.lalrpop_norm_json.specs.Shapes as shape;
    ghost use Rattle.lalrpop_norm_json.specs.Shapes.{is};
    ghost use Rattle.lalrpop_norm_json.specs.Laws.{no_variant};

    ghost form = { literal_form };

    ghost can = { is shape.literal };

    ghost law = { λ d other. no_variant _ _ d other };

    fn bare(_name: &str) -> Option<TerminalLiteral> {
        None
    }

    fn held<'a>(
        alloc: Global,
        name: &str,
        first: Token<'a>,
        reader: &mut Reader<'a>,
        depth: usize,
    ) -> Result<Option<TerminalLiteral>, ReadError> {
        match name {
            "Quoted" => match <Tree as Reads<Atom>>::read(alloc, first, reader, depth)? {
                Some(read) => Ok(Some(TerminalLiteral::Quoted(read))),
                None => Ok(None),
            },
            "Regex" => match <Tree as Reads<Atom>>::read(alloc, first, reader, depth)? {
                Some(read) => Ok(Some(TerminalLiteral::Regex(read))),
                None => Ok(None),
            },
            _ => {
                pass(first, reader, depth)?;
                Ok(None)
            }
        }
    }
}

impl Reads<TerminalLiteral> for Tree {
    ghost use Rattle.lalrpop_norm_json.specs.Forms.{literal_form};
    ghost use Rattle.lalrpop_norm_json.specs.Shapes as shape;
    ghost use Rattle.lalrpop_norm_json.specs.Shapes.{is};

    ghost form = { literal_form };

    ghost can = { is shape.literal };

    fn read<'a>(
        alloc: Global,
        first: Token<'a>,
        reader: &mut Reader<'a>,
        depth: usize,
    ) -> Result<Option<TerminalLiteral>, ReadError> {
        read_variant::<TerminalLiteral, Tree>(alloc, first, reader, depth)
    }
}

impl Variant<TerminalString> for Tree {
    ghost use Rattle.lalrpop_norm_json.specs.Forms.{terminal_form};
    ghost use Rattle.lalrpop_norm_json.specs.Shapes as shape;
    ghost use Rattle.lalrpop_norm_json.specs.Shapes.{is};
    ghost use Rattle.lalrpop_norm_json.specs.Laws.{no_variant};

    ghost form = { terminal_form };

    ghost can = { is shape.terminal };

    ghost law = { λ d other. no_variant _ _ d other };

    fn bare(name: &str) -> Option<TerminalString> {
        match name {
            "Error" => Some(TerminalString::Error),
            _ => None,
        }
    }

    fn held<'a>(
        alloc: Global,
        name: &str,
        first: Token<'a>,
        reader: &mut Reader<'a>,
        depth: usize,
    ) -> Result<Option<TerminalString>, ReadError> {
        match name {
            "Literal" => match <Tree as Reads<TerminalLiteral>>::read(
                alloc, first, reader, depth,
            )? {
                Some(read) => Ok(Some(TerminalString::Literal(read))),
                None => Ok(None),
            },
            "Bare" => match <Tree as Reads<Atom>>::read(alloc, first, reader, depth)? {
                Some(read) => Ok(Some(TerminalString::Bare(read))),
                None => Ok(None),
            },
            _ => {
                pass(first, reader, depth)?;
                Ok(None)
            }
        }
    }
}

impl Reads<TerminalString> for Tree {
    ghost use Rattle.lalrpop_norm_json.specs.Forms.{terminal_form};
    ghost use Rattle.lalrpop_norm_json.specs.Shapes as shape;
    ghost use Rattle.lalrpop_norm_json.specs.Shapes.{is};

    ghost form = { terminal_form };

    ghost can = { is shape.terminal };

    fn read<'a>(
        alloc: Global,
        first: Token<'a>,
        reader: &mut Reader<'a>,
        depth: usize,
    ) -> Result<Option<TerminalString>, ReadError> {
        read_variant::<TerminalString, Tree>(alloc, first, reader, depth)
    }
}

impl Variant<TypeParameter> for Tree {
    ghost use Rattle.lalrpop_norm_json.specs.Forms.{type_parameter_form};
    ghost use Rattle.lalrpop_norm_json.specs.Shapes as shape;
    ghost use Rattle.lalrpop_norm_json.specs.Shapes.{is};
    ghost use Rattle.lalrpop_norm_json.specs.Laws.{no_variant};

    ghost form = { type_parameter_form };

    ghost can = { is shape.type_parameter };

    ghost law = { λ d other. no_variant _ _ d other };

    fn bare(_name: &str) -> Option<TypeParameter> {
        None
    }

    fn held<'a>(
        alloc: Global,
        name: &str,
        first: Token<'a>,
        reader: &mut Reader<'a>,
        depth: usize,
    ) -> Result<Option<TypeParameter>, ReadError> {
        match name {
            "Lifetime" => match <Tree as Reads<Lifetime>>::read(alloc, first, reader, depth)? {
                Some(read) => Ok(Some(TypeParameter::Lifetime(read))),
                None => Ok(None),
            },
            "Id" => match <Tree as Reads<Atom>>::read(alloc, first, reader, depth)? {
                Some(read) => Ok(Some(TypeParameter::Id(read))),
                None => Ok(None),
            },
            _ => {
                pass(first, reader, depth)?;
                Ok(None)
            }
        }
    }
}

impl Reads<TypeParameter> for Tree {
    ghost use Rattle.lalrpop_norm_json.specs.Forms.{type_parameter_form};
    ghost use Rattle.lalrpop_norm_json.specs.Shapes as shape;
    ghost use Rattle.lalrpop_norm_json.specs.Shapes.{is};

    ghost form = { type_parameter_form };

    ghost can = { is shape.type_parameter };

    fn read<'a>(
        alloc: Global,
        first: Token<'a>,
        reader: &mut Reader<'a>,
        depth: usize,
    ) -> Result<Option<TypeParameter>, ReadError> {
        read_variant::<TypeParameter, Tree>(alloc, first, reader, depth)
    }
}
